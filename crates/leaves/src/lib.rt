// The leaf functions of the record, exported by value for the comparison of each with the Rust's (host/leaves; `put_back_sr`, which the Rust
// has not, with the test's own). It uses `status`, `cpu` and `pending`; what it exports is proved equal to their definitions. No program
// that runs a processor needs it: `lent` has the calls.
#![tactic(auto)]

ghost use Rattle.std.specs.Prelude.{◌≡◌};
ghost use Rattle.status.specs.Status.{get_sr, set_sr_noint_nosp, put_back_sr, set_ccr};
ghost use Rattle.status.specs.Banks.{sp_index, backup_sp, restore_sp, set_sflag, set_sm_flag, set_sm_flag_nosp};
ghost use Rattle.cpu.specs.Clocks.{internal_cycles, prefetch_enabled};
ghost use Rattle.cpu.specs.Fields.{address_of};
ghost use Rattle.pending.specs.Trace.{trace_t0_sr_write, trace_t068040_sync};

use cpu::Cpu;

#[unsafe(no_mangle)]
pub extern "C" fn leaf_get_sr(c: Cpu) -> u32
    ensures { result ≡ get_sr c }
{
    u32::from(status::get_sr(c))
}

#[unsafe(no_mangle)]
pub extern "C" fn leaf_set_sr_noint_nosp(c: Cpu, sr: u16) -> Cpu
    ensures { result ≡ set_sr_noint_nosp c sr }
{
    status::set_sr_noint_nosp(c, sr)
}

#[unsafe(no_mangle)]
pub extern "C" fn leaf_put_back_sr(c: Cpu, sr: u16) -> Cpu
    ensures { result ≡ put_back_sr c sr }
{
    status::put_back_sr(c, sr)
}

#[unsafe(no_mangle)]
pub extern "C" fn leaf_set_ccr_internal(c: Cpu, ccr: u8) -> Cpu
    ensures { result ≡ set_ccr c ccr }
{
    status::set_ccr_internal(c, ccr)
}

#[unsafe(no_mangle)]
pub extern "C" fn leaf_sp_index(c: Cpu) -> usize
    ensures { result ≡ sp_index c }
{
    status::banks::sp_index(c)
}

#[unsafe(no_mangle)]
pub extern "C" fn leaf_backup_sp(c: Cpu) -> Cpu
    ensures { result ≡ backup_sp c }
{
    status::banks::backup_sp(c)
}

#[unsafe(no_mangle)]
pub extern "C" fn leaf_restore_sp(c: Cpu) -> Cpu
    ensures { result ≡ restore_sp c }
{
    status::banks::restore_sp(c)
}

#[unsafe(no_mangle)]
pub extern "C" fn leaf_set_s_flag(c: Cpu, v: u32) -> Cpu
    ensures { result ≡ set_sflag c v }
{
    status::banks::set_s_flag(c, v)
}

#[unsafe(no_mangle)]
pub extern "C" fn leaf_set_sm_flag(c: Cpu, v: u32) -> Cpu
    ensures { result ≡ set_sm_flag c v }
{
    status::banks::set_sm_flag(c, v)
}

#[unsafe(no_mangle)]
pub extern "C" fn leaf_set_sm_flag_nosp(c: Cpu, v: u32) -> Cpu
    ensures { result ≡ set_sm_flag_nosp c v }
{
    status::banks::set_sm_flag_nosp(c, v)
}

#[unsafe(no_mangle)]
pub extern "C" fn leaf_internal_cycles(c: Cpu, n: u32) -> Cpu
    ensures { result ≡ internal_cycles c n }
{
    cpu::clocks::internal_cycles(c, n)
}

#[unsafe(no_mangle)]
pub extern "C" fn leaf_prefetch_enabled(c: Cpu) -> bool
    ensures { result ≡ prefetch_enabled c }
{
    cpu::clocks::prefetch_enabled(c)
}

#[unsafe(no_mangle)]
pub extern "C" fn leaf_address(c: Cpu, a: u32) -> u32
    ensures { result ≡ address_of c a }
{
    cpu::fields::address(c, a)
}

#[unsafe(no_mangle)]
pub extern "C" fn leaf_trace_t0_sr_write(c: Cpu) -> Cpu
    ensures { result ≡ trace_t0_sr_write c }
{
    pending::trace::trace_t0_sr_write(c)
}

#[unsafe(no_mangle)]
pub extern "C" fn leaf_trace_t0_68040_sync(c: Cpu) -> Cpu
    ensures { result ≡ trace_t068040_sync c }
{
    pending::trace::trace_t0_68040_sync(c)
}
