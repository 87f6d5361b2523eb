// Text, written into a lent array.
#![tactic(auto)]

ghost use Rattle.std.specs.Prelude.{◌≡◌, length};
ghost use Rattle.text.specs.Text.{digits, decimal, hex, line};
ghost use Rattle.text.specs.Writes.{keyed};
ghost use Rattle.text.specs.WritesCode.{pushed};

use util::view::put_bytes;

// Bytes that hold every text: a listing is the longest.
pub const ROOM: usize = 65536;

// A lent array, and how many of its bytes are written. What it has no room for is left out.
#[derive(Drop)]
pub struct Text<'a> {
    out: &'a mut [u8; ROOM],
    len: usize,
}

impl<'a> Text<'a> {
    pub fn new(out: &'a mut [u8; ROOM]) -> Text<'a>
        ensures same_reference { result.out.ghost_name ≡ out.entry.ghost_name }
        ensures bytes { result.out.now ≡ out.old }
        ensures len { result.len ≡ 0 }
    {
        Text { out, len: 0 }
    }

    // How many bytes are written.
    pub fn len(&self) -> usize
        ensures { result ≡ self.now.len }
    {
        self.len
    }

    // The bytes as they are.
    pub fn push(&mut self, bytes: &[u8])
        ensures { self.new ≡ pushed self.old bytes.now }
    {
        let at = self.len;
        if at < ROOM {
            let n = (ROOM - at).min(bytes.len());
            self.len = put_bytes(self.out, at, &bytes[..n]);
        }
    }

    // The last `width` decimal digits of n, with leading zeros. By hand, since `{:0width$}` of std tells its bytes only of an Ok, which it does not
    // promise, and has all digits of a number that is longer.
    fn push_digits(&mut self, n: usize, width: usize)
        ensures { self.new ≡ pushed self.old (digits width n) }
    {
        if width > 0 {
            self.push_digits(n / 10, width - 1);
            self.push(&[b'0' + (n % 10) as u8]);
        }
    }

    // A line of a key, with the sign after it, and a value.
    #[tactic(auto, using(crate::proofs::WritesLaws::pushed_on))]
    fn push_line(&mut self, key: &[u8], value: &[u8])
        ensures { self.new ≡ pushed self.old (keyed key.now value.now) }
    {
        self.push(key);
        self.push(value);
        self.push(b"\n");
    }

    // .. and a number's last `width` digits.
    #[tactic(auto, using(crate::proofs::WritesLaws::pushed_on))]
    pub fn push_digits_line(&mut self, key: &[u8], n: usize, width: usize)
        ensures { self.new ≡ pushed self.old (keyed key.now (digits width n)) }
    {
        self.push(key);
        self.push_digits(n, width);
        self.push(b"\n");
    }

    // .. and a number.
    pub fn push_decimal_line(&mut self, key: &[u8], n: usize)
        ensures { self.new ≡ pushed self.old (keyed key.now (decimal n)) }
    {
        self.push_line(key, itoa::Buffer::new().format(n).as_bytes());
    }

    // .. and a name.
    pub fn push_hex_line(&mut self, key: &[u8], name: &[u8])
        requires { length name.now ≡ 16 }
        ensures { self.new ≡ pushed self.old (keyed key.now (hex name.now)) }
    {
        let mut digits = [0; 32];
        hex::encode_to_slice(name, &mut digits).unwrap();
        self.push_line(key, &digits);
    }

    // The answer's line.
    pub fn push_answer(&mut self, n: u32)
        ensures { self.new ≡ pushed self.old (line "answer" (decimal n)) }
    {
        self.push_decimal_line(b"answer=", n as usize);
    }
}
