// The archive for C and Rust: each function of `paneglove` under its own name as a symbol, with the same clause. `include/paneglove.h` declares them, with
// the refusals of each in order.
#![tactic(auto)]

ghost use Rattle.std.specs.Prelude.{◌≡◌};
ghost use Rattle.table.specs.Calls.{outcome};
ghost use Rattle.router.specs.Clear.{asked, cleared_slice};
ghost use Rattle.router.specs.ReadPayload.{read_slice};
ghost use Rattle.survey.specs.Check.{check_answer, checked_slice};
ghost use Rattle.survey.specs.Find.{find_answer, found_slice};
ghost use Rattle.paneglove.specs.Across.{taken_across, moved_across, read_across, check_across, find_across, copied_across, listed_across};

use paneglove::{Checked, Copied, Found, Listed, Moved, Payload, Read, Taken};

#[unsafe(no_mangle)]
pub extern "C" fn paneglove_clear(
    s: &mut [u8],
    width: u32,
    height: u32,
    depth: u32,
    profile: u32,
) -> u32
    ensures { outcome result s.new ≡ cleared_slice s.old (asked width height depth profile) }
{
    paneglove::paneglove_clear(s, width, height, depth, profile)
}

#[unsafe(no_mangle)]
pub extern "C" fn paneglove_take_in(
    s: &mut [u8],
    source: u8,
    destination: u8,
    payload: Payload,
) -> Taken
    ensures { outcome result s.new ≡ taken_across s.old source destination payload.bytes }
{
    paneglove::paneglove_take_in(s, source, destination, payload)
}

#[unsafe(no_mangle)]
pub extern "C" fn paneglove_make_move(s: &mut [u8], slot: u32, code: u32) -> Moved
    ensures { outcome result s.new ≡ moved_across s.old slot code }
{
    paneglove::paneglove_make_move(s, slot, code)
}

#[unsafe(no_mangle)]
pub extern "C" fn paneglove_read_payload(s: &[u8], slot: u32) -> Read
    ensures { result ≡ read_across (read_slice s.now slot).answer }
{
    paneglove::paneglove_read_payload(s, slot)
}

#[unsafe(no_mangle)]
pub extern "C" fn paneglove_full_check(s: &[u8]) -> Checked
    ensures { result ≡ check_across (check_answer (checked_slice s.now)) }
{
    paneglove::paneglove_full_check(s)
}

#[unsafe(no_mangle)]
pub extern "C" fn paneglove_find(s: &[u8]) -> Found
    ensures { result ≡ find_across (find_answer (found_slice s.now)) }
{
    paneglove::paneglove_find(s)
}

#[unsafe(no_mangle)]
pub extern "C" fn paneglove_copy_outward(s: &[u8], out: &mut [u8]) -> Copied
    ensures { outcome result out.new ≡ copied_across s.now out.old }
{
    paneglove::paneglove_copy_outward(s, out)
}

#[unsafe(no_mangle)]
pub extern "C" fn paneglove_list(s: &[u8], out: &mut [u8]) -> Listed
    ensures { outcome result out.new ≡ listed_across s.now out.old }
{
    paneglove::paneglove_list(s, out)
}
