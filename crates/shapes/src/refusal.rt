// The refusals of documents 01 and 02, and their numbers. 5 is given to none, since import and include rows are read.
ghost use Rattle.std.specs.Prelude.{◌≡◌};
ghost use Rattle.shapes.specs.Refusal.{number};

#[derive(Clone, Copy, PartialEq, Eq)]
pub enum Refusal {
    // The reader's: a source or a list too long, lists of different lengths, an id that is none, rows that do not tile, too little scratch; then no room for
    // events and for error records.
    Long,
    Unequal,
    Id,
    Tiles,
    Scratch,
    Events,
    Errors,
    // The merger's: no list of events; an ERROR end with none open, or an ERROR begin never closed.
    Malformed,
    Unpaired,
    // Messages: an error record that does not read, no room for the text.
    Record,
    Text,
    // No room for the rows that were cut.
    Rows,
    // Rules and outline: no room for the list; events that do not nest, or a rule without a name.
    Rules,
    Nesting,
    // Listings: no listing of edition 1 or 2, no room for it.
    Listing,
    Output,
    // Settings and days: an edition that is none, a settings line and a day line that do not read.
    Edition,
    Settings,
    Day,
}

// The number of an import or include row's refusal, which none has any more.
pub const IMPORT: u32 = 5;

impl From<Refusal> for u32 {
    ghost from_gives = { λ refusal n. n ≡ number refusal };

    fn from(refusal: Refusal) -> u32 {
        match refusal {
            Refusal::Long => 1,
            Refusal::Unequal => 2,
            Refusal::Id => 3,
            Refusal::Tiles => 4,
            Refusal::Scratch => 6,
            Refusal::Events => 7,
            Refusal::Errors => 8,
            Refusal::Malformed => 9,
            Refusal::Unpaired => 10,
            Refusal::Record => 11,
            Refusal::Text => 12,
            Refusal::Rows => 13,
            Refusal::Rules => 14,
            Refusal::Nesting => 15,
            Refusal::Listing => 16,
            Refusal::Output => 17,
            Refusal::Edition => 18,
            Refusal::Settings => 19,
            Refusal::Day => 20,
        }
    }
}
