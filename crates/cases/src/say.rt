// A case's name with what came out. Where standard output does not take a part there is nobody left to tell.
use std::fmt::Display;
use wire::refusal::Refusal;

// Each part of a line is a write of its own: println! gathers the whole line first, and where standard output fails
// inside it other bytes would go out.
pub(crate) fn part<D: Display + Drop>(rt: &HostRuntime, told: D) {
    let _ = print!(rt; "{told}");
}

// A case whose lines follow: one part.
pub(crate) fn title(rt: &HostRuntime, name: &str) {
    let _ = println!(rt; "{name}:");
}

pub(crate) fn answer<D: Display + Drop>(rt: &HostRuntime, name: &str, answer: D) {
    part(rt, name);
    part(rt, ": ");
    part(rt, answer);
    part(rt, "\n");
}

pub(crate) fn truth<D: Display + Drop>(rt: &HostRuntime, name: D, is_so: bool) {
    part(rt, name);
    part(rt, if is_so { ": yes\n" } else { ": no\n" });
}

fn refused(rt: &HostRuntime, name: &str, refusal: Refusal) {
    part(rt, name);
    part(rt, ": refused ");
    part(rt, refusal.number());
    part(rt, "\n");
}

// The answer, or the refusal.
pub(crate) fn came<D: Display + Drop>(rt: &HostRuntime, name: &str, came: Result<D, Refusal>) {
    match came {
        Ok(told) => answer(rt, name, told),
        Err(refusal) => refused(rt, name, refusal),
    }
}

// `accepted`, or the refusal.
pub(crate) fn accepted<T: Copy>(rt: &HostRuntime, name: &str, made: Result<T, Refusal>) {
    match made {
        Ok(_) => {
            part(rt, name);
            part(rt, ": accepted\n");
        }
        Err(refusal) => refused(rt, name, refusal),
    }
}

// The total of group 3 for a kind and family, as the book answers.
pub(crate) fn total(rt: &HostRuntime, name: &str, book: &[u8], kind: u64, family: u64) {
    let asked = desk::books::ask(book, 3, kind, family);
    came(rt, name, asked.map(|told| told.total));
}
