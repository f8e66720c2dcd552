// The host's entry as a C function, which include/cornus.h declares: that of `host`, with its contract.
#![tactic(auto)]

ghost use Rattle.std.specs.Prelude.{◌≡◌, length};
ghost use Rattle.host.specs.Host.{host_returns, host_leaves};

#[unsafe(no_mangle)]
pub extern "C" fn cornus_participant_step(
    n: u32,
    own: u32,
    state: u32,
    heard: u32,
    event: u32,
    detail: u32,
    answer: u32,
    out: &mut [u8],
) -> u32
    ensures { (result ≡ host_returns (length out.old) n own state heard event detail answer) × (out.new ≡ host_leaves out.old n own state heard event detail answer) }
{
    host::cornus_participant_step(n, own, state, heard, event, detail, answer, out)
}
