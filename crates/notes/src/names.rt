// What is noted beside the state: what was expected, as codes of names, and what is looked at seldom.
ghost use Rattle.std.specs.Prelude.{◌≡◌, ◌≤◌, ◌<◌, length};
ghost use Rattle.definition.specs.Render.{Source};
ghost use Rattle.definition.specs.Run as P;
ghost use Rattle.notes.specs.Whole.{Whole, beside, fresh};
ghost use Rattle.notes.specs.Means.{names_in, names_of};
ghost use Rattle.notes.specs.Did.{Ok, Plain, Coded, Enters, Peeked};

#[derive(Drop)]
pub struct Notes {
    // The furthest row at which names were expected, and the furthest that was unexpected: one more than its index, 0 for none.
    pub want: usize,
    pub unwant: usize,
    // How many codes there are, and which, as bits of a word.
    pub count: usize,
    pub mask: usize,
    // How many numbers of error records stand written, how many may, and where those of the item at hand begin.
    pub er: usize,
    pub ercap: usize,
    pub item: usize,
    // The item's first row, and the row up to before which failures are remembered.
    pub first: usize,
    pub far: usize,
    // How long a found text may be to be quoted. It stands here so that only what chooses an error looks at it.
    pub quote: usize,
    // The number of the item at hand, from 1, which its error records carry.
    pub number: usize,
    // The codes in order of first entry, 58 at the most: a set's number for the set's ids, or 55 to 57 for the three descriptions. An array and a count, since
    // the library takes no memory of its own.
    pub codes: [usize; 58],
}

impl Notes {
    // Nothing is noted.
    pub fn fresh() -> Self
        ensures { result ≡ fresh }
    {
        Notes {
            want: 0,
            unwant: 0,
            count: 0,
            mask: 0,
            er: 0,
            ercap: 0,
            item: 0,
            first: 0,
            far: 0,
            quote: 0,
            number: 0,
            codes: [0; 58],
        }
    }

    // Enters a code, unless it is there.
    fn enter(&mut self, code: usize)
        requires { Coded self.old × (code < 58) }
        ensures { (s : Whole)
            → Enters (P.join (names_in (beside self.old s)) (names_of code)) (beside self.old s) (beside self.new s) }
    {
        if (self.mask >> code) & 1 == 1 {
            return;
        }
        self.codes[self.count] = code;
        self.mask |= 1 << code;
        self.count += 1;
    }

    // Names were expected at the row.
    pub fn expected(&mut self, code: usize, at: usize)
        requires { Coded self.old × (code < 58) × (at ≤ 65536) }
        ensures { (x : Source) (s : Whole) → Ok (length x.ids) (beside self.old s) → Peeked x.ids s.pos at
            → Plain (P.expected (names_of code)) x (beside self.old s) (beside self.new s) }
    {
        let row = at + 1;
        if row < self.want {
            return;
        }
        if self.want < row {
            self.want = row;
            self.count = 0;
            self.mask = 0;
            self.enter(code);
            return;
        }
        self.enter(code);
    }

    // A row was matched that must not stand there.
    pub fn unexpected(&mut self, at: usize)
        requires { at ≤ 65536 }
        ensures { (x : Source) (s : Whole) → Ok (length x.ids) (beside self.old s) → Peeked x.ids s.pos at
            → Plain P.unexpected x (beside self.old s) (beside self.new s) }
    {
        if self.unwant < at + 1 {
            self.unwant = at + 1;
        }
    }
}
