// Where the files of a plan stand: on disk, or among the lists of the demonstration.
use crate::demo::list_of;
use crate::lists::file_of;
use crate::why::Why;
use console::misread::Misread;
use std::fs;

#[derive(Clone, Copy)]
pub enum Shelf {
    Disk,
    Demo,
}

impl Shelf {
    // The bytes of the file of that name.
    pub fn file(self, rt: &HostRuntime, name: &str) -> Result<Vec<u8>, Why> {
        match self {
            Shelf::Disk => fs::read(rt, name).map_err(|_| Why::Misread(Misread::Path)),
            Shelf::Demo => {
                let list = list_of(name).ok_or(Misread::Path)?;
                file_of(rt.alloc(), list).map_err(|wrong| wrong.why)
            }
        }
    }
}
