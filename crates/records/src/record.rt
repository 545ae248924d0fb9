// A record as 12 bytes: its kind and its subkind, as the numbers that are read (`Entry` has them as enums), and five numbers of
// 16 bits, low byte first.
ghost use Rattle.std.specs.Prelude.{◌≡◌, length, MatchResult, ◌≢◌};
ghost use Rattle.records.specs.Layout.{record_of};

use std::array;

// A record, its bytes read as numbers.
#[derive(Clone, Copy, PartialEq, Eq, Debug)]
pub struct Record {
    pub kind: u8,
    pub subkind: u8,
    pub numbers: [u16; 5],
}

// The bytes are not 12.
#[derive(Clone, Copy, PartialEq, Eq, Debug)]
pub struct NotTwelveBytes;

impl TryFrom<&[u8]> for Record {
    type Error = NotTwelveBytes;

    ghost try_from_gives = { λ bytes r. MatchResult r (λ held. (length bytes.now ≡ 12) × (held ≡ record_of bytes.now)) (λ _. length bytes.now ≢ 12) };

    fn try_from(bytes: &[u8]) -> Result<Record, NotTwelveBytes> {
        match bytes {
            [kind, subkind, rest @ ..] if rest.len() == 10 => Ok(Record {
                kind: *kind,
                subkind: *subkind,
                numbers: array::from_fn(|i| u16::from_le_bytes([rest[2 * i], rest[2 * i + 1]])),
            }),
            _ => Err(NotTwelveBytes),
        }
    }
}

impl Record {
    // The 12 bytes that hold the record; named as `to_le_bytes` of Rust's numbers is.
    pub fn to_bytes(&self) -> [u8; 12]
        ensures { record_of result ≡ self.now }
    {
        let [a, b, c, d, e] = self.numbers;
        let [a0, a1] = a.to_le_bytes();
        let [b0, b1] = b.to_le_bytes();
        let [c0, c1] = c.to_le_bytes();
        let [d0, d1] = d.to_le_bytes();
        let [e0, e1] = e.to_le_bytes();
        [
            self.kind,
            self.subkind,
            a0,
            a1,
            b0,
            b1,
            c0,
            c1,
            d0,
            d1,
            e0,
            e1,
        ]
    }
}
