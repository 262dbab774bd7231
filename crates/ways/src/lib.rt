// Which way a call over a lent record goes, for the comparison, which counts it. The record is given by value, so that nothing of it changes. It uses
// `attempts`; no program that runs a processor needs it.
#![tactic(auto)]

ghost use Rattle.std.specs.Prelude.{◌≡◌};

use fast_plans::Way;
use numbers::RawCall;
use records::LentCore;

// 0 where the plain way does the call, and then store and log are as they were; 1 where the fast way makes an entry, 2 where it changes at most a level,
// a flag and the count of events, 3 where it changes nothing.
#[unsafe(no_mangle)]
pub extern "C" fn m68k_way(core: LentCore, call: RawCall, store: &mut [u8], log: &mut [u32]) -> u32
    ensures { (result ≡ 0 → store.new ≡ store.old) × (result ≡ 0 → log.new ≡ log.old) }
{
    match attempts::attempt(core, call, store, log).patch.way {
        Way::Plain => 0,
        Way::Entry => 1,
        Way::Calm => 2,
        Way::Idle => 3,
    }
}
