// The text of an answer (document 01, run file), word by word.
ghost use Rattle.std.specs.Prelude.{◌≡◌, ◌∷◌, ◌+◌, ◌≤◌, ◌<◌};
ghost use Rattle.lists.specs.Prelude.{[], length, Float, List, ℕ};
ghost use Rattle.run_file.specs.Text.{decimal, hex_digit, hexadecimal, line, run_word, time_line};
ghost use Rattle.run_file.specs.Program.{refused_text};
ghost use Rattle.run_file.specs.Appended.{Appended};

use complex::bits::to_bits;
use observables::Observed;

// The bytes of a text, and how many of them are written.
#[derive(Clone, Copy)]
pub(crate) struct Text {
    pub(crate) bytes: [u8; 512],
    pub(crate) length: usize,
}

#[tactic(auto, unfolding(crate::specs::Text::hex_digit))]
fn hex_digit(d: u8) -> u8
    requires { d < 16 }
    ensures { result ≡ hex_digit d }
{
    if d < 10 { b'0' + d } else { b'A' + (d - 10) }
}

impl Text {
    fn letter(&mut self, byte: u8)
        requires { self.old.length < 512 }
        ensures { Appended self.old.bytes self.new.bytes self.old.length self.new.length (byte ∷ []) × (self.new.length ≡ self.old.length + 1) }
    {
        self.bytes[self.length] = byte;
        self.length += 1;
    }

    fn letters(&mut self, word: &[u8])
        requires { self.old.length + length word.now ≤ 512 }
        ensures { Appended self.old.bytes self.new.bytes self.old.length self.new.length word.now × (self.new.length ≡ self.old.length + length word.now) }
    {
        let end = self.length + word.len();
        self.bytes[self.length..end].copy_from_slice(word);
        self.length = end;
    }

    // A number below 100.
    fn tens(&mut self, n: u8)
        requires { (n < 100) × (self.old.length + 2 ≤ 512) }
        ensures { Appended self.old.bytes self.new.bytes self.old.length self.new.length (decimal n) × (self.new.length ≤ self.old.length + 2) }
    {
        if n < 10 {
            return self.letter(b'0' + n);
        }
        self.letter(b'0' + n / 10);
        self.letter(b'0' + n % 10);
    }

    fn decimal(&mut self, n: u8)
        requires { self.old.length + 3 ≤ 512 }
        ensures { Appended self.old.bytes self.new.bytes self.old.length self.new.length (decimal n) × (self.new.length ≤ self.old.length + 3) }
    {
        if n < 100 {
            return self.tens(n);
        }
        self.tens(n / 10);
        self.letter(b'0' + n % 10);
    }

    // The 16 upper-case hexadecimal digits, highest first. Nothing is known of what std's `{:X}` writes.
    fn hexadecimal(&mut self, n: u64)
        requires { self.old.length + 16 ≤ 512 }
        ensures { Appended self.old.bytes self.new.bytes self.old.length self.new.length (hexadecimal 16 n) × (self.new.length ≡ self.old.length + 16) }
    {
        let mut unit = 0x1000_0000_0000_0000u64;
        for _k in 0..16usize {
            self.letter(hex_digit((n / unit % 16) as u8));
            unit /= 16;
        }
    }

    // `refused K`.
    pub(crate) fn refused_line(&mut self, number: u8)
        requires { self.old.length + 12 ≤ 512 }
        ensures { Appended self.old.bytes self.new.bytes self.old.length self.new.length (refused_text number) × (self.new.length ≤ self.old.length + 12) }
    {
        self.letters(b"refused ");
        self.decimal(number);
        self.letter(b'\n');
    }

    // `run N n`.
    pub(crate) fn run_line(&mut self, points: u8, orbitals: u8)
        requires { self.old.length + 12 ≤ 512 }
        ensures { Appended self.old.bytes self.new.bytes self.old.length self.new.length (line (run_word ∷ decimal points ∷ decimal orbitals ∷ [])) × (self.new.length ≤ self.old.length + 12) }
    {
        self.letters(b"run ");
        self.decimal(points);
        self.letter(b' ');
        self.decimal(orbitals);
        self.letter(b'\n');
    }

    // A time's index, and its particle number or the refusal's number.
    pub(crate) fn time_line(&mut self, t: u8, number: Observed)
        requires { self.old.length + 28 ≤ 512 }
        ensures { Appended self.old.bytes self.new.bytes self.old.length self.new.length (time_line t number) × (self.new.length ≤ self.old.length + 28) }
    {
        self.decimal(t);
        self.letter(b' ');
        match number {
            Observed::Number(x) => {
                self.letters(b"number ");
                self.hexadecimal(to_bits(x));
                self.letter(b'\n');
            }
            Observed::NotReal(_) => self.refused_line(14),
            Observed::Refused(r) => self.refused_line(r.number),
        }
    }
}
