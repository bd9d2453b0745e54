// Long texts, each built from nothing in a room of 16,385 bytes. What finds no room is left out.
ghost use Rattle.std.specs.Prelude.{[], ◌∷◌, ◌≡◌, ◌≤◌, take};
ghost use Rattle.examples.specs.Code.Texts.{Put, repeated, row_text, nested_text, left_deep_text, right_deep_text, exchanged_text, deep_chain_text, crossed_text, sign, halved, balanced_text};

// A text at the front of its room, and where it ends.
// A buffer and its end: what the builders promise, `Put`, speaks of the room behind the text as well.
#[derive(Drop)]
pub struct Text {
    pub bytes: [u8; 16385],
    pub end: usize,
    ghost within: { end ≤ 16385 },
}

impl Text {
    pub fn new() -> Text
        ensures { result.end ≡ 0 }
    {
        Text {
            bytes: [0; 16385],
            end: 0,
        }
    }

    pub fn as_bytes(&self) -> &[u8]
        ensures { result.now ≡ take self.now.end self.now.bytes }
    {
        let room: &[u8] = &self.bytes;
        &room[..self.end]
    }

    // One byte more.
    fn byte(&mut self, byte: u8)
        ensures { Put self.old.bytes self.new.bytes self.old.end (byte ∷ []) self.new.end }
    {
        if self.end < 16385 {
            self.bytes[self.end] = byte;
            self.end += 1;
        }
    }

    fn word(&mut self, word: &[u8])
        ensures { Put self.old.bytes self.new.bytes self.old.end word.now self.new.end }
    {
        for byte in word {
            self.byte(*byte);
        }
    }

    // A word, so many times.
    fn words(&mut self, word: &[u8], times: usize)
        ensures { Put self.old.bytes self.new.bytes self.old.end (repeated times word.now) self.new.end }
    {
        for _ in 0..times {
            self.word(word);
        }
    }

    // A word so many times, and then another.
    pub fn row(&mut self, word: &[u8], times: usize, last: &[u8])
        ensures { Put self.old.bytes self.new.bytes 0 (row_text word.now times last.now) self.new.end }
    {
        self.end = 0;
        self.words(word, times);
        self.word(last);
    }

    // A number in so many parentheses.
    pub fn nested(&mut self, depth: usize)
        ensures { Put self.old.bytes self.new.bytes 0 (nested_text depth) self.new.end }
    {
        self.end = 0;
        self.words(b"(", depth);
        self.word(b"1");
        self.words(b")", depth);
    }

    // Every operator's right operand is a number; the operators alternate wherever a parenthesis allows it.
    pub fn left_deep(&mut self)
        ensures { Put self.old.bytes self.new.bytes 0 left_deep_text self.new.end }
    {
        self.end = 0;
        self.words(b"(", 63);
        self.word(b"1");
        self.words(b"*1*1*1*1*1*1*1*1+1+1+1+1+1+1+1+1)", 63);
        self.words(b"*1", 15);
    }

    // Every operator's left operand is a number; 64 parentheses allow 131 literals.
    pub fn right_deep(&mut self)
        ensures { Put self.old.bytes self.new.bytes 0 right_deep_text self.new.end }
    {
        self.end = 0;
        self.words(b"1+1*(", 64);
        self.word(b"1+1*1");
        self.words(b")", 64);
    }

    // A chain whose operators are all exchanged, inside so many parentheses: its deep operand comes second in the gates' order.
    pub fn exchanged(&mut self, depth: usize, pairs: usize)
        ensures { Put self.old.bytes self.new.bytes 0 (exchanged_text depth pairs) self.new.end }
    {
        self.end = 0;
        self.words(b"1*(", depth);
        self.word(b"(1+2)");
        self.words(b"*(3+4)*5", pairs);
        self.word(b"*(3+4)");
        self.words(b")", depth);
    }

    // 1,024 literals: a plain chain inside as many parentheses as are allowed.
    pub fn deep_chain(&mut self)
        ensures { Put self.old.bytes self.new.bytes 0 deep_chain_text self.new.end }
    {
        self.end = 0;
        self.words(b"1+1*(", 64);
        self.words(b"1+", 895);
        self.word(b"1");
        self.words(b")", 64);
    }

    // Ten parentheses closed too early, and then seventy opened: never more than 64 deep.
    pub fn crossed(&mut self)
        ensures { Put self.old.bytes self.new.bytes 0 crossed_text self.new.end }
    {
        self.end = 0;
        self.words(b")", 10);
        self.words(b"(", 70);
    }

    // The operator between two halves, each halved so many times.
    fn sign(&mut self, level: usize)
        ensures { Put self.old.bytes self.new.bytes self.old.end (sign level) self.new.end }
    {
        if level % 2 == 0 {
            self.word(b"+");
        } else {
            self.word(b"*");
        }
    }

    // A number, halved so many times: its two halves in parentheses.
    fn halved(&mut self, level: usize)
        ensures { Put self.old.bytes self.new.bytes self.old.end (halved level) self.new.end }
    {
        if level == 0 {
            self.word(b"1");
        } else {
            self.word(b"(");
            self.halved(level - 1);
            self.sign(level - 1);
            self.halved(level - 1);
            self.word(b")");
        }
    }

    // 1,024 literals, halved ten times; the operators alternate from level to level.
    pub fn balanced(&mut self)
        ensures { Put self.old.bytes self.new.bytes 0 balanced_text self.new.end }
    {
        self.end = 0;
        self.halved(10);
    }
}
