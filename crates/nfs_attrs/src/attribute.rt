//! The attributes that this server has, by their numbers (RFC 8881 sections 5.8.1 and 5.8.2).

/// The attributes that the server has.
pub const SUPPORTED_ATTRS: u32 = 0;
/// What kind of object it is.
pub const TYPE: u32 = 1;
/// When a filehandle may expire.
pub const FH_EXPIRE_TYPE: u32 = 2;
/// A number that each change of the object raises.
pub const CHANGE: u32 = 3;
/// The object's size, in bytes.
pub const SIZE: u32 = 4;
/// Whether objects may have several names.
pub const LINK_SUPPORT: u32 = 5;
/// Whether there are symbolic links.
pub const SYMLINK_SUPPORT: u32 = 6;
/// Whether the object has named attributes.
pub const NAMED_ATTR: u32 = 7;
/// The file system.
pub const FSID: u32 = 8;
/// Whether two filehandles are always two objects.
pub const UNIQUE_HANDLES: u32 = 9;
/// How long a lease is, in seconds.
pub const LEASE_TIME: u32 = 10;
/// Why READDIR could not report the attributes of an entry.
pub const RDATTR_ERROR: u32 = 11;
/// The object's filehandle.
pub const FILEHANDLE: u32 = 19;
/// The object's number.
pub const FILEID: u32 = 20;
/// How many more objects a user may make.
pub const FILES_AVAIL: u32 = 21;
/// How many more objects there may be.
pub const FILES_FREE: u32 = 22;
/// How many objects there may be.
pub const FILES_TOTAL: u32 = 23;
/// The most bytes of a file.
pub const MAXFILESIZE: u32 = 27;
/// The most names of an object.
pub const MAXLINK: u32 = 28;
/// The most bytes of a name.
pub const MAXNAME: u32 = 29;
/// The most bytes of one READ.
pub const MAXREAD: u32 = 30;
/// The most bytes of one WRITE.
pub const MAXWRITE: u32 = 31;
/// The permission bits.
pub const MODE: u32 = 33;
/// How many names the object has.
pub const NUMLINKS: u32 = 35;
/// The user that owns the object.
pub const OWNER: u32 = 36;
/// The group of the object.
pub const OWNER_GROUP: u32 = 37;
/// How many more bytes a user may write.
pub const SPACE_AVAIL: u32 = 42;
/// How many more bytes there may be.
pub const SPACE_FREE: u32 = 43;
/// How many bytes there may be.
pub const SPACE_TOTAL: u32 = 44;
/// How many bytes the object takes.
pub const SPACE_USED: u32 = 45;
/// When the object was last read.
pub const TIME_ACCESS: u32 = 47;
/// Sets when the object was last read.
pub const TIME_ACCESS_SET: u32 = 48;
/// How far apart two times of the server are at least.
pub const TIME_DELTA: u32 = 51;
/// When the object or its attributes last changed.
pub const TIME_METADATA: u32 = 52;
/// When the object last changed.
pub const TIME_MODIFY: u32 = 53;
/// Sets when the object last changed.
pub const TIME_MODIFY_SET: u32 = 54;
/// The object's number, as the file system has it that it is mounted on.
pub const MOUNTED_ON_FILEID: u32 = 55;
/// The attributes that an exclusive create can set.
pub const SUPPATTR_EXCLCREAT: u32 = 75;

/// All of them, in rising order.
pub const ALL: [u32; 38] = [
    SUPPORTED_ATTRS,
    TYPE,
    FH_EXPIRE_TYPE,
    CHANGE,
    SIZE,
    LINK_SUPPORT,
    SYMLINK_SUPPORT,
    NAMED_ATTR,
    FSID,
    UNIQUE_HANDLES,
    LEASE_TIME,
    RDATTR_ERROR,
    FILEHANDLE,
    FILEID,
    FILES_AVAIL,
    FILES_FREE,
    FILES_TOTAL,
    MAXFILESIZE,
    MAXLINK,
    MAXNAME,
    MAXREAD,
    MAXWRITE,
    MODE,
    NUMLINKS,
    OWNER,
    OWNER_GROUP,
    SPACE_AVAIL,
    SPACE_FREE,
    SPACE_TOTAL,
    SPACE_USED,
    TIME_ACCESS,
    TIME_ACCESS_SET,
    TIME_DELTA,
    TIME_METADATA,
    TIME_MODIFY,
    TIME_MODIFY_SET,
    MOUNTED_ON_FILEID,
    SUPPATTR_EXCLCREAT,
];
