//! A file that is replaced whole, so that nobody reads half of it.

use std::alloc::AllocError;
use std::fs;
use std::fs::File;
use std::io::Write;

/// A file whose next version is written beside it, under its name and `.tmp`, and then takes its name.
#[derive(Drop)]
pub struct Replaced<'a> {
    rt: &'a HostRuntime,
    path: &'a str,
    next: String,
    /// The next version, where it is being written and nothing has failed.
    file: Option<File>,
    /// Whether a version could not be written.
    failed: bool,
}

impl<'a> Replaced<'a> {
    /// Nothing is written yet. `AllocError` where memory is refused.
    pub fn new(rt: &'a HostRuntime, path: &'a str) -> Result<Replaced<'a>, AllocError> {
        Ok(Replaced {
            rt,
            path,
            next: format!(in rt.alloc(); "{path}.tmp")?,
            file: None,
            failed: false,
        })
    }

    /// The name of the file.
    pub fn path(&self) -> &'a str {
        self.path
    }

    /// Whether a version could not be written.
    pub fn has_failed(&self) -> bool {
        self.failed
    }

    /// Begins the next version, which is a file of its own: what stands under its name goes first.
    pub fn begin(&mut self) {
        let _ = fs::remove_file(self.rt, self.next.as_str());
        self.file = File::create_new(self.rt, self.next.as_str()).ok();
        self.failed = self.failed || self.file.is_none();
    }

    /// Puts a text behind the others.
    pub fn put(&mut self, text: &str) {
        if let Some(file) = &mut self.file {
            if file.write_all(text.as_bytes()).is_err() {
                self.file = None;
                self.failed = true;
            }
        }
    }

    /// The version is whole: it takes the name of the file.
    pub fn end(&mut self) {
        if self.file.take().is_some() {
            let named = fs::rename(self.rt, self.next.as_str(), self.path);
            self.failed = self.failed || named.is_err();
        }
    }
}
