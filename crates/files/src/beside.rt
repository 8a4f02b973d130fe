// A file of one's own beside another.
ghost use Rattle.std.specs.Prelude.{◌≡◌, ◌≤◌, length};

use crate::EINVAL;
use crate::known::{known_of, text_of};
use std::fs::{File, Metadata, OpenOptions, Permissions};
use std::io;
use std::io::ErrorKind;
use std::os::unix::fs::{MetadataExt, OpenOptionsExt, PermissionsExt, fchown};
use std::random::RandomSource;

// What stands in a name for the letters that are made up.
const BLANKS: &[u8; 6] = b"XXXXXX";

// What a letter that is made up may be.
const LETTERS: &[u8; 62] = b"0123456789ABCDEFGHIJKLMNOPQRSTUVWXYZabcdefghijklmnopqrstuvwxyz";

// How many names are tried while each is taken: as many as the letters of three places make.
const NAMES: u32 = 238328;

fn is_given(file: &File, like: &Metadata) -> bool {
    fchown(file, Some(like.uid()), Some(like.gid())).is_ok()
        || fchown(file, None, Some(like.gid())).is_ok()
}

// Owner, group and mode of another file, where these can be given.
fn make_like(file: &File, like: &Metadata) {
    if is_given(file, like) {
        let _ = file.set_permissions(Permissions::from_mode(like.mode() & 0o777));
    }
}

fn letter(x: u8) -> u8 {
    LETTERS[usize::from(x % 62)]
}

// A number's digits to the base of 62, the lowest first.
fn count_in(letters: &mut [u8], number: u32) {
    let mut left = number;
    for x in letters.iter_mut() {
        *x = (left % 62) as u8;
        left /= 62;
    }
}

// Letters by chance; where the system gives none, those that the number of the try makes.
fn make_up(rt: &HostRuntime, letters: &mut [u8], tried: u32) {
    if rt.fill_bytes(letters).is_err() {
        count_in(letters, tried);
    }
    for x in letters.iter_mut() {
        *x = letter(*x);
    }
}

// Only where no file has the name, and only for its maker to read and write. `create` of names gives other rights and
// does not read; what the two share is std's, and one function for both would be handed all that tells them apart.
fn create(rt: &HostRuntime, name: &[u8]) -> io::Result<File> {
    let mut how = OpenOptions::new();
    how.read(true).write(true).create_new(true).mode(0o600);
    how.open(rt, text_of(name)?)
}

fn is_taken(made: &io::Result<File>) -> bool {
    matches!(made, Err(e) if e.kind() == ErrorKind::AlreadyExists)
}

// Makes the letters from a place on up until they name a file that is new. A loop: `name` is written anew at each try,
// and the answer is the last try's, whatever it was.
fn create_new(rt: &HostRuntime, name: &mut [u8], at: usize) -> io::Result<File>
    requires { at ≤ length name.old }
    ensures { length name.new ≡ length name.old }
{
    let mut made = Err(io::Error::from(ErrorKind::AlreadyExists));
    for tried in 0..NAMES {
        make_up(rt, &mut name[at..], tried);
        made = create(rt, name);
        if !is_taken(&made) {
            break;
        }
    }
    made
}

// Makes a file whose name is made up where `name` has XXXXXX at its end, and answers it, or why it cannot be made. It
// has owner, group and mode of the file `like` where these can be given, and else only its maker can read it. After an
// error the name has its XXXXXX again.
pub fn make_beside(rt: &HostRuntime, name: &mut [u8], like: &[u8]) -> io::Result<File>
    ensures { length name.new ≡ length name.old }
{
    if !name.ends_with(BLANKS) {
        return Err(io::Error::from_raw_os_error(EINVAL));
    }
    let at = name.len() - BLANKS.len();
    match create_new(rt, name, at) {
        Ok(file) => {
            if let Ok(known) = known_of(rt, like) {
                make_like(&file, &known);
            }
            Ok(file)
        }
        Err(e) => {
            name[at..].fill(b'X');
            Err(e)
        }
    }
}
