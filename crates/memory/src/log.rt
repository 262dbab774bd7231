// One event at its place of the log: three words.
ghost use Rattle.std.specs.Prelude.{◌≡◌};
ghost use Rattle.memory.specs.Log.{note_log};

// Event number n is words 3n to 3n + 2. Without room for all three nothing is written: no call makes more events than the
// log that number 7 asks for has room for.
#[tactic(auto, unfolding(crate::specs::Log::note_log))]
pub fn put_event(log: &mut [u32], n: u32, code: u32, address: u32, value: u32)
    ensures { log.new ≡ note_log n log.old code address value }
{
    let at = (n as usize) * 3;
    if at + 2 < log.len() {
        log[at] = code;
        log[at + 1] = address;
        log[at + 2] = value;
    }
}
