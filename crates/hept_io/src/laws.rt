ghost use Rattle.hept_io.specs.LineLaws.{AllGiven, JoinedIsLines, LastIsLine, LineIsFirst, NoneGiven, NoneOfNone, OneMoreGiven};

/// The laws of the lines of bytes: no bytes have none; a line and its newline come first, and then the
/// lines of what is behind; bytes without a newline are one line; and the lines hold every byte. A loop
/// that takes one line after another takes the lines of all bytes.
pub fn line_laws()
    ensures none { NoneOfNone }
    ensures line { LineIsFirst }
    ensures last { LastIsLine }
    ensures joined { JoinedIsLines }
    ensures none_given { NoneGiven }
    ensures one_more_given { OneMoreGiven }
    ensures all_given { AllGiven }
{}
