ghost use Rattle.std.specs.Prelude.{◌≡◌, length};
ghost use Rattle.std.specs.Option.{option_map, option_and_then};
ghost use Rattle.dw_event.specs.Marks.{after_mark, front_number, front_digits, after_dash, front_pair, pair_uid, mark_uid};

use crate::uids::UidMaker;
use dw_base::read_numeral;
use dw_key::Uid;

/// Reads the uid from the record itself. For tests. At the first place where the bytes 0, `I`, `D`, 0
/// stand it reads decimal digits s, a `-` and decimal digits i, both below 2^32, and gives the 8 bytes
/// of s, 16 bytes 0 and the 8 bytes of i, the highest first. Where it finds none it gives 32 bytes 0.
#[derive(Clone, Copy, Debug)]
pub struct MarkUid;

impl UidMaker for MarkUid {
    ghost digest = { mark_uid };

    fn digest(&self, canonical: &[u8]) -> Uid {
        match marked_pair(canonical) {
            Some((s, i)) => spelled(s, i),
            None => [0; 32],
        }
    }
}

fn marked_pair(canonical: &[u8]) -> Option<(u32, u32)>
    ensures { result ≡ option_and_then front_pair (after_mark canonical.now) }
{
    read_pair(read_mark(canonical)?)
}

fn read_mark(canonical: &[u8]) -> Option<&[u8]>
    ensures { option_map (λ x. x.now) result ≡ after_mark canonical.now }
{
    let mut rest = canonical;
    while let [_, after @ ..] = rest {
        if rest.starts_with(b"\0ID\0") {
            return Some(&rest[4..]);
        }
        rest = after;
    }
    None
}

fn read_pair(text: &[u8]) -> Option<(u32, u32)>
    ensures { result ≡ front_pair text.now }
{
    let (s, rest) = read_number(text)?;
    let (i, _) = read_number(read_dash(rest)?)?;
    Some((s, i))
}

fn read_dash(text: &[u8]) -> Option<&[u8]>
    ensures { option_map (λ x. x.now) result ≡ after_dash text.now }
{
    match text {
        [b'-', rest @ ..] => Some(rest),
        _ => None,
    }
}

#[tactic(auto, using(crate::proofs::Spelling::fronts))]
fn read_number(text: &[u8]) -> Option<(u32, &[u8])>
    ensures { option_map (λ (n, rest). (n, rest.now)) result ≡ front_number text.now }
{
    let count = count_digits(text);
    let number = read_numeral(&text[..count], u64::from(u32::MAX))?;
    Some((number as u32, &text[count..]))
}

fn count_digits(text: &[u8]) -> usize
    ensures { result ≡ length (front_digits text.now) }
{
    text.iter().take_while(|b| b.is_ascii_digit()).count()
}

fn spelled(s: u32, i: u32) -> Uid
    ensures { result ≡ pair_uid (s, i) }
{
    let s = u64::from(s).to_be_bytes();
    let i = u64::from(i).to_be_bytes();
    [
        s[0], s[1], s[2], s[3], s[4], s[5], s[6], s[7], 0, 0, 0, 0, 0, 0, 0, 0, 0, 0, 0, 0, 0, 0,
        0, 0, i[0], i[1], i[2], i[3], i[4], i[5], i[6], i[7],
    ]
}
