// What the system knows of a file by its name.
use crate::EINVAL;
use std::fs::Metadata;
use std::{fs, io};

// The name as text, as the system takes it here.
pub(crate) fn text_of(name: &[u8]) -> io::Result<&str> {
    std::str::from_utf8(name).map_err(|_| io::Error::from_raw_os_error(EINVAL))
}

// Owner, group, mode and kind of the file of that name; an error where the system does not tell.
pub(crate) fn known_of(rt: &HostRuntime, name: &[u8]) -> io::Result<Metadata> {
    fs::metadata(rt, text_of(name)?)
}
