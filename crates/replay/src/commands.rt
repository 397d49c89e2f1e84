// The commands of a script, read from its bytes.
ghost use Rattle.std.specs.Prelude.{ℕ, ◌≡◌, ◌+◌, ◌-◌, ◌∷◌, ◌++◌, ◌<◌, ◌≤◌, Some, length, slice_index, IfOk, OnOk, OnErr};
ghost use Rattle.replay.specs.Sizes.{size_of};

// A letter that is none, a command that the script's end cuts off, or one that names what its buffer does not hold.
#[derive(Debug, Drop)]
pub struct Malformed;

#[derive(Clone, Copy)]
pub enum Command {
    Lend {
        length: u32,
    },
    SetByte {
        place: u32,
        byte: u8,
    },
    Clear {
        width: u32,
        height: u32,
        depth: u32,
        profile: u32,
    },
    TakeIn {
        source: u8,
        destination: u8,
        payload: [u8; 8],
    },
    Move {
        slot: u32,
        code: u32,
    },
    ReadPayload {
        slot: u32,
    },
    FullCheck,
    Find,
    CopyOutward {
        length: u32,
        fill: u8,
    },
    ShowSlice,
    ShowSecond,
}

fn next_bytes<const N: usize>(rest: &mut &[u8]) -> Result<[u8; N], Malformed>
    ensures taken { IfOk result (λ xs. rest.old.now ≡ xs ++ rest.new.now) }
    ensures refused { OnErr result (length rest.old.now < N) }
{
    let (first, after) = rest.split_first_chunk::<N>().ok_or(Malformed)?;
    *rest = after;
    Ok(*first)
}

fn next_byte(rest: &mut &[u8]) -> Result<u8, Malformed>
    ensures taken { IfOk result (λ b. rest.old.now ≡ b ∷ rest.new.now) }
    ensures refused { OnErr result (length rest.old.now < 1) }
{
    rest.split_off_first().copied().ok_or(Malformed)
}

fn next_number(rest: &mut &[u8]) -> Result<u32, Malformed>
    ensures taken { OnOk result (length rest.old.now ≡ 4 + length rest.new.now) }
    ensures refused { OnErr result (length rest.old.now < 4) }
{
    Ok(u32::from_le_bytes(next_bytes(rest)?))
}

#[tactic(auto, unfolding(crate::specs::Sizes::size_of))]
pub fn next_command(rest: &mut &[u8]) -> Result<Command, Malformed>
    ensures size { OnOk result (size_of (slice_index rest.old.now 0) ≡ Some (length rest.old.now - length rest.new.now)) }
    ensures shorter { OnOk result (length rest.new.now < length rest.old.now) }
    ensures refused { OnErr result ((n : ℕ) → size_of (slice_index rest.old.now 0) ≡ Some n → length rest.old.now < n) }
{
    let command = match next_byte(rest)? {
        b'L' => Command::Lend {
            length: next_number(rest)?,
        },
        b'S' => Command::SetByte {
            place: next_number(rest)?,
            byte: next_byte(rest)?,
        },
        b'C' => Command::Clear {
            width: next_number(rest)?,
            height: next_number(rest)?,
            depth: next_number(rest)?,
            profile: next_number(rest)?,
        },
        b'T' => Command::TakeIn {
            source: next_byte(rest)?,
            destination: next_byte(rest)?,
            payload: next_bytes(rest)?,
        },
        b'M' => Command::Move {
            slot: next_number(rest)?,
            code: next_number(rest)?,
        },
        b'P' => Command::ReadPayload {
            slot: next_number(rest)?,
        },
        b'F' => Command::FullCheck,
        b'N' => Command::Find,
        b'O' => Command::CopyOutward {
            length: next_number(rest)?,
            fill: next_byte(rest)?,
        },
        b'W' => Command::ShowSlice,
        b'D' => Command::ShowSecond,
        _ => return Err(Malformed),
    };
    Ok(command)
}
