// The listed tags of a page.
ghost use Rattle.std.specs.Prelude.{◌≡◌, [], ◌∷◌};
ghost use Rattle.entries.specs.Fields.{wide, place_of, form_of, numbers_of, chosen, table_from, gathered_from, no_fields};

use crate::entry::Entry;
use crate::field_type::FieldType;

// The form of a number: a SHORT takes two bytes, a LONG four.
#[derive(Clone, Copy)]
pub enum Form {
    Short,
    Long,
}

// The values of a listed tag: numbers of one form, how many, and the place of the first.
#[derive(Clone, Copy)]
pub struct Numbers {
    pub form: Form,
    pub count: u32,
    pub place: u32,
}

// The offsets and the byte counts of strips or of tiles.
#[derive(Clone, Copy, Default)]
pub struct Table {
    pub offsets: Option<Numbers>,
    pub counts: Option<Numbers>,
}

// The listed tags of a page, each with its values where it is present.
#[derive(Clone, Copy, Default)]
pub struct Fields {
    // 256
    pub width: Option<Numbers>,
    // 257, the image length
    pub height: Option<Numbers>,
    // 258, bits per sample
    pub bits: Option<Numbers>,
    // 259
    pub compression: Option<Numbers>,
    // 262
    pub photometric: Option<Numbers>,
    // 266, fill order
    pub fill: Option<Numbers>,
    // 273 and 279
    pub strips: Table,
    // 274
    pub orientation: Option<Numbers>,
    // 277, samples per pixel
    pub samples: Option<Numbers>,
    // 278, rows per strip
    pub rows: Option<Numbers>,
    // 284, planar configuration
    pub planes: Option<Numbers>,
    // 322, tile width
    pub across: Option<Numbers>,
    // 323, tile length
    pub down: Option<Numbers>,
    // 324 and 325
    pub tiles: Table,
}

// The form of a listed tag's numbers, by their type.
fn form_of(kind: u16) -> Form
    ensures { result ≡ form_of kind }
{
    if kind == FieldType::Short.number() {
        Form::Short
    } else {
        Form::Long
    }
}

impl Form {
    // The bytes that a number takes.
    pub fn size(self) -> u8
        ensures { result ≡ wide self }
    {
        match self {
            Form::Short => 2,
            Form::Long => 4,
        }
    }
}

impl Numbers {
    // Where number k begins.
    pub fn place_of(self, k: u32) -> u64
        ensures { result ≡ place_of self k }
    {
        self.place as u64 + self.form.size() as u64 * k as u64
    }
}

impl Entry {
    // The values, of a listed tag.
    fn numbers(self) -> Numbers
        ensures { result ≡ numbers_of self }
    {
        Numbers {
            form: form_of(self.kind),
            count: self.count,
            place: self.values,
        }
    }

    // The values under a tag once this entry is met, after those known before.
    fn choose(self, wanted: u16, before: Option<Numbers>) -> Option<Numbers>
        ensures { result ≡ chosen self.tag wanted (numbers_of self) before }
    {
        if self.tag == wanted {
            Some(self.numbers())
        } else {
            before
        }
    }
}

impl Table {
    // The table once an entry is met, by the tags of its offsets and of its byte counts.
    fn with(self, offsets: u16, counts: u16, entry: Entry) -> Table
        ensures { result ≡ table_from self offsets counts (entry ∷ []) }
    {
        Table {
            offsets: entry.choose(offsets, self.offsets),
            counts: entry.choose(counts, self.counts),
        }
    }
}

impl Fields {
    // No tag at all.
    pub fn none() -> Fields
        ensures { result ≡ no_fields }
    {
        Fields::default()
    }

    // The listed tags once an entry is met.
    pub fn with(self, entry: Entry) -> Fields
        ensures { result ≡ gathered_from self (entry ∷ []) }
    {
        Fields {
            width: entry.choose(256, self.width),
            height: entry.choose(257, self.height),
            bits: entry.choose(258, self.bits),
            compression: entry.choose(259, self.compression),
            photometric: entry.choose(262, self.photometric),
            fill: entry.choose(266, self.fill),
            strips: self.strips.with(273, 279, entry),
            orientation: entry.choose(274, self.orientation),
            samples: entry.choose(277, self.samples),
            rows: entry.choose(278, self.rows),
            planes: entry.choose(284, self.planes),
            across: entry.choose(322, self.across),
            down: entry.choose(323, self.down),
            tiles: self.tiles.with(324, 325, entry),
        }
    }
}
