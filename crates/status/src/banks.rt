// The stack pointers of user, interrupt and master state.
ghost use Rattle.std.specs.Prelude.{◌≡◌, ◌<◌};
ghost use Rattle.status.specs.Banks.{sp_index, backup_sp, restore_sp, put_s, set_sm_flag_nosp, set_sflag, set_sm_flag, enter_supervisor};

use cpu::Cpu;

// `sp_index`: 0 user, 4 interrupt, 6 master, the indexes of the Rust's `sp`. The 68060 has one supervisor stack.
#[tactic(auto, unfolding(crate::specs::Banks::sp_index, types::specs::Kinds::is060))]
pub fn sp_index(c: Cpu) -> usize
    ensures { (result ≡ sp_index c) × (result < 8) }
{
    if c.flags.s_flag / 4 % 2 == 0 {
        0
    } else if c.flow.cpu_type == types::M68060 {
        4
    } else if c.flags.m_flag / 2 % 2 == 0 {
        4
    } else {
        6
    }
}

// `backup_sp`: A7 into the saved pointer of the stack in use.
#[tactic(auto, unfolding(crate::specs::Banks::backup_sp))]
pub fn backup_sp(mut c: Cpu) -> Cpu
    ensures { result ≡ backup_sp c }
{
    let i = sp_index(c);
    let v = c.regs.dar[15];
    c.regs.sp[i] = v;
    c
}

// `restore_sp`: the saved pointer of the stack in use into A7.
#[tactic(auto, unfolding(crate::specs::Banks::restore_sp))]
pub fn restore_sp(mut c: Cpu) -> Cpu
    ensures { result ≡ restore_sp c }
{
    let i = sp_index(c);
    let v = c.regs.sp[i];
    c.regs.dar[15] = v;
    c
}

// The S flag is v, no stack switched.
#[tactic(auto, unfolding(crate::specs::Banks::put_s))]
fn put_s(mut c: Cpu, v: u32) -> Cpu
    ensures { result ≡ put_s c v }
{
    c.flags.s_flag = v;
    c
}

// `set_sm_flag_nosp`: S from bit 2 and M from bit 1 of the value, no stack switched.
#[tactic(auto, unfolding(crate::specs::Banks::set_sm_flag_nosp))]
pub fn set_sm_flag_nosp(mut c: Cpu, value: u32) -> Cpu
    ensures { result ≡ set_sm_flag_nosp c value }
{
    c.flags.s_flag = value / 4 % 2 * 4;
    c.flags.m_flag = value / 2 % 2 * 2;
    c
}

// `set_s_flag`: the stack is switched with S.
#[tactic(auto, unfolding(crate::specs::Banks::set_sflag))]
pub fn set_s_flag(c: Cpu, value: u32) -> Cpu
    ensures { result ≡ set_sflag c value }
{
    restore_sp(put_s(backup_sp(c), value))
}

// `set_sm_flag`: the stack is switched with S and M.
#[tactic(auto, unfolding(crate::specs::Banks::set_sm_flag))]
pub fn set_sm_flag(c: Cpu, value: u32) -> Cpu
    ensures { result ≡ set_sm_flag c value }
{
    restore_sp(set_sm_flag_nosp(backup_sp(c), value))
}

// What every entry does first: supervisor stack and state, trace off.
#[tactic(auto, unfolding(crate::specs::Banks::enter_supervisor))]
pub fn enter_supervisor(c: Cpu) -> Cpu
    ensures { result ≡ enter_supervisor c }
{
    crate::clear_trace(set_s_flag(c, 4))
}
