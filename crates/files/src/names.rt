// What is done to a file by its name alone.
use crate::known::text_of;
use std::fs::{File, OpenOptions};
use std::{fs, io};

// Makes a file of that name where there is none, open for writing.
pub fn create(rt: &HostRuntime, name: &[u8]) -> io::Result<File> {
    let mut how = OpenOptions::new();
    how.write(true).create_new(true);
    how.open(rt, text_of(name)?)
}

// Gives a file another's name, in that one's place.
pub fn rename(rt: &HostRuntime, from: &[u8], to: &[u8]) -> io::Result<()> {
    fs::rename(rt, text_of(from)?, text_of(to)?)
}

fn try_to_remove(rt: &HostRuntime, name: &[u8]) -> io::Result<()> {
    fs::remove_file(rt, text_of(name)?)
}

// Takes a file of one's own away. Where that fails it stays, and whoever calls has already said what went wrong.
pub fn remove(rt: &HostRuntime, name: &[u8]) {
    let _ = try_to_remove(rt, name);
}
