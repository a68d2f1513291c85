// "Reading keeps the lent text and the place reached in it together": a reader holds both. Its functions are thin; the work
// is done on the slice and the place by `line_at`. `line_from` has plain parameters, so that its callers know no reader.
ghost use Rattle.std.specs.Prelude.{◌≡◌};
ghost use Rattle.register_line.specs.LineReading.{GotAt};

use crate::line_at;
use register::Line;

#[derive(Drop)]
pub struct Reader<'a> {
    pub text: &'a [u8],
    pub at: usize,
}

pub fn placed<'a>(text: &'a [u8], at: usize) -> Reader<'a>
    ensures { (result.text ≡ text.entry) × (result.at ≡ at) }
{
    Reader { text, at }
}

pub fn next<'a>(r: Reader<'a>) -> Option<(Line, usize)>
    ensures { GotAt r.entry.text.now r.entry.at result }
{
    line_at(r.text, r.at)
}

pub fn line_from(s: &[u8], at: usize) -> Option<(Line, usize)>
    ensures { GotAt s.now at result }
{
    next(placed(s, at))
}
