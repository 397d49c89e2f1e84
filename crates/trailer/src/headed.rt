// A table and what its trailer says: the last part of a lent slice.
ghost use Rattle.std.specs.Prelude.{◌≡◌, ◌+◌, ◌-◌, length, drop, option_map, IfSome};
ghost use Rattle.board.specs.Layout.{Sized};
ghost use Rattle.trailer.specs.Trailer.{trailer_of};

use crate::Head;

#[derive(Clone, Copy)]
pub struct Table<'a> {
    pub bytes: &'a [u8],
    pub head: Head,
    pub ghost sized: { Sized head.board bytes.now },
}

// The table of a slice whose trailer is good.
#[tactic(auto, using(crate::proofs::TrailerLaws::trailer_good, crate::proofs::TrailerLaws::trailer_sized, slots::proofs::Parts::lent_rest))]
pub fn table_in(s: &[u8]) -> Option<Table<'_>>
    ensures head { option_map (λ t. t.head) result ≡ trailer_of s.now }
    ensures bytes { IfSome result (λ t. t.bytes.now ≡ drop (length s.now - t.head.size) s.now) }
    ensures place { IfSome result (λ t. t.bytes.ref_ptr ≡ (s.entry.ref_ptr.0, length s.now - t.head.size + s.entry.ref_ptr.1)) }
{
    let head = crate::trailer(s)?;
    let start = s.len() - head.size;
    Some(Table {
        bytes: &s[start..],
        head,
    })
}
