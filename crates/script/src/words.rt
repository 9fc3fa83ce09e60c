// Words of a line.
ghost use Rattle.std.specs.Prelude.{◌≡◌, [], ◌∷◌, Some, IfErr, OkIff};
ghost use Rattle.std.specs.Str.Parse.{ParsesUnsigned};
ghost use Rattle.script.specs.Texts.{text, unnamed, Wordless};
ghost use Rattle.script.specs.Words.{Numbers, area_named};

use raster::grid::Area;
use std::alloc::AllocError;
use std::fmt;

// What is wrong with a line.
#[derive(Clone, Copy, PartialEq, Eq, Debug)]
pub enum Wrong {
    // There was no memory for its words.
    Memory,
    // The first word is no call.
    Call,
    // There are too few or too many words.
    Count,
    // A word is no number that fits 32 bits.
    Number,
    // A word is neither of the two that may stand there.
    Choice,
}

impl fmt::Display for Wrong {
    ghost output = { λ w. Some (text w) };

    fn fmt<W: fmt::Write>(&self, f: &mut fmt::Formatter<W>) -> fmt::Result {
        f.write_str(match self {
            Wrong::Memory => "there is not enough memory",
            Wrong::Call => "there is no such call",
            Wrong::Count => "it has too few or too many words",
            Wrong::Number => "a word is no number that fits 32 bits",
            Wrong::Choice => "a word is none of those that may stand there",
        })
    }
}

impl From<AllocError> for Wrong {
    fn from(_e: AllocError) -> Wrong {
        Wrong::Memory
    }
}

// A word that is no number that fits 32 bits.
#[derive(Clone, Copy, PartialEq, Eq, Debug)]
pub struct NoNumber<'a>(pub &'a str);

impl From<NoNumber<'_>> for Wrong {
    ghost use Rattle.script.specs.declared.words.Wrong.TheVariants.{Number};

    ghost from_gives = { λ word wrong. wrong ≡ Number };

    fn from(_word: NoNumber<'_>) -> Wrong {
        Wrong::Number
    }
}

// What is wrong with a line, with the word that is no number, which is the line's own.
#[derive(Clone, Copy, PartialEq, Eq, Debug)]
pub enum Refusal<'a> {
    // There was no memory for its words.
    Memory,
    // The first word is no call.
    Call,
    // There are too few or too many words.
    Count,
    // This word is no number that fits 32 bits; it is empty where there is none.
    Number(&'a str),
    // A word is neither of the two that may stand there.
    Choice,
}

impl fmt::Display for Refusal<'_> {
    ghost output = { λ r. Some (text (unnamed r)) };

    fn fmt<W: fmt::Write>(&self, f: &mut fmt::Formatter<W>) -> fmt::Result {
        Wrong::from(*self).fmt(f)
    }
}

impl<'a> From<AllocError> for Refusal<'a> {
    ghost use Rattle.script.specs.declared.words.Refusal.TheVariants.{Memory};

    ghost from_gives = { λ _ refusal. refusal ≡ Memory };

    fn from(_e: AllocError) -> Refusal<'a> {
        Refusal::Memory
    }
}

impl<'a> From<NoNumber<'a>> for Refusal<'a> {
    ghost use Rattle.script.specs.declared.words.Refusal.TheVariants.{Number};

    ghost from_gives = { λ word refusal. refusal ≡ Number word.0 };

    fn from(word: NoNumber<'a>) -> Refusal<'a> {
        Refusal::Number(word.0)
    }
}

impl<'a> From<Wrong> for Refusal<'a> {
    ghost from_gives = { λ wrong refusal. (unnamed refusal ≡ wrong) × Wordless refusal };

    fn from(wrong: Wrong) -> Refusal<'a> {
        match wrong {
            Wrong::Memory => Refusal::Memory,
            Wrong::Call => Refusal::Call,
            Wrong::Count => Refusal::Count,
            Wrong::Number => Refusal::Number(""),
            Wrong::Choice => Refusal::Choice,
        }
    }
}

impl From<Refusal<'_>> for Wrong {
    ghost from_gives = { λ refusal wrong. wrong ≡ unnamed refusal };

    fn from(refusal: Refusal<'_>) -> Wrong {
        match refusal {
            Refusal::Memory => Wrong::Memory,
            Refusal::Call => Wrong::Call,
            Refusal::Count => Wrong::Count,
            Refusal::Number(_) => Wrong::Number,
            Refusal::Choice => Wrong::Choice,
        }
    }
}

// The number that a word stands for.
pub fn number<'a>(word: &'a str) -> Result<u32, NoNumber<'a>>
    ensures value { ParsesUnsigned 32 10 word.now result }
    ensures wrong { IfErr result (λ wrong. wrong.0 ≡ word.exit) }
{
    word.parse::<u32>().map_err(|_| NoNumber(word))
}

// The rectangle that four words name.
pub fn area_of<'a>(
    x: &'a str,
    y: &'a str,
    width: &'a str,
    height: &'a str,
) -> Result<Area, NoNumber<'a>>
    ensures { OkIff result (Numbers (x.now ∷ y.now ∷ width.now ∷ height.now ∷ [])) (area_named x.now y.now width.now height.now) }
{
    Ok(Area {
        x: number(x)?,
        y: number(y)?,
        width: number(width)?,
        height: number(height)?,
    })
}
