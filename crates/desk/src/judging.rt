// What a day's ladders are judged by: its text, the contracts' families and the counts.
ghost use Rattle.std.specs.Prelude.{◌≤◌, length};
ghost use Rattle.rules.specs.Kinds.{kinds_of};
ghost use Rattle.places.specs.Places.{cells};

use rules::text::Text;

#[derive(Clone, Copy)]
pub(crate) struct Judging<'a> {
    pub(crate) text: Text,
    pub(crate) fams: &'a [u8],
    pub(crate) counts: &'a [u32],
    ghost few: { length fams.now ≤ 32 },
    ghost enough: { cells (kinds_of text.rulebook) ≤ length counts.now },
}
