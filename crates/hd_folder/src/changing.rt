//! A folder that is changed by steps, one after another.

use crate::fault::FolderFault;
use crate::paths::file_path;
use crate::presence::{remove, remove_journal};
use crate::writing::{rename_part, sync_file, sync_folder, sync_path, write_file};
use hd_periods::{FileKind, FileName, PeriodFile, Step};
use std::fs::File;

/// A file that was written and isn't synced yet.
#[derive(Drop)]
struct Written {
    path: String,
    file: File,
}

/// A folder that is changed by steps.
#[derive(Drop)]
pub struct Changing<'a> {
    rt: &'a HostRuntime,
    folder: &'a str,
    /// The file that was written last, until it is synced.
    written: Option<Written>,
    /// The path of the file that was renamed last, until the folder is synced.
    renamed: Option<String>,
}

impl<'a> Changing<'a> {
    /// A folder in which no step is done yet.
    pub fn of(rt: &'a HostRuntime, folder: &'a str) -> Changing<'a> {
        Changing {
            rt,
            folder,
            written: None,
            renamed: None,
        }
    }

    /// Does a step. `bytes` are those that its file is to have.
    ///
    /// # Errors
    /// The system refuses it; out of memory.
    pub fn take(&mut self, step: &Step, bytes: &[u8]) -> Result<(), FolderFault> {
        match step {
            Step::Write(name) => self.write(name, bytes),
            Step::Sync(name) => self.sync(name),
            Step::Rename(file) => self.rename(file),
            Step::Remove(file) => self.remove(file),
            Step::SyncFolder => self.sync_folder(),
        }
    }

    /// The path of a name.
    ///
    /// # Errors
    /// Out of memory.
    pub fn path(&self, name: &FileName) -> Result<String, FolderFault> {
        Ok(file_path(self.rt.alloc(), self.folder, name)?)
    }

    fn write(&mut self, name: &FileName, bytes: &[u8]) -> Result<(), FolderFault> {
        let path = self.path(name)?;
        let file = write_file(self.rt, path.as_str(), bytes)?;
        self.written = Some(Written { path, file });
        Ok(())
    }

    fn sync(&mut self, name: &FileName) -> Result<(), FolderFault> {
        let path = self.path(name)?;
        if let Some(written) = self.written.take()
            && written.path.as_str() == path.as_str()
        {
            return sync_file(self.rt, &written.file, path.as_str());
        }
        sync_path(self.rt, path.as_str())
    }

    fn rename(&mut self, file: &PeriodFile) -> Result<(), FolderFault> {
        let part = self.path(&FileName::part(file.number, file.kind))?;
        let path = self.path(&FileName::whole(file.number, file.kind))?;
        rename_part(self.rt, part.as_str(), path.as_str())?;
        self.renamed = Some(path);
        Ok(())
    }

    fn remove(&mut self, file: &PeriodFile) -> Result<(), FolderFault> {
        let path = self.path(&FileName::whole(file.number, file.kind))?;
        match file.kind {
            FileKind::Journal => remove_journal(self.rt, path.as_str()),
            _ => remove(self.rt, path.as_str()),
        }
    }

    fn sync_folder(&mut self) -> Result<(), FolderFault> {
        match self.renamed.take() {
            Some(path) => sync_folder(self.rt, self.folder, Some(path.as_str())),
            None => sync_folder(self.rt, self.folder, None),
        }
    }
}
