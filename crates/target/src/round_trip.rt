// Writing and reading undo each other, for every target.
ghost use Rattle.std.specs.Prelude.{◌≡◌, ◌≤◌, length, take, IfOk};
ghost use Rattle.target.specs.Refusals.{Judged, Reading, WrittenBack, Written, refusal, write_table};

use crate::interface::{Branch, Target, WriteFault};

// Writes a branch, and reads what then stands at the front of `out`.
pub fn write_then_read<T: Target>(
    target: &T,
    branch: Branch,
    out: &mut [u8],
) -> Result<Option<Branch>, WriteFault>
    ensures refuses { Judged (write_table (T.Target.meaning target.now) branch (length out.old)) (refusal result) }
    ensures after { Written (T.Target.meaning target.now) branch out.old result out.new }
    ensures same { IfOk result (λ read. read ≡ Some branch) }
{
    target.write(branch, out)?;
    Ok(read_front(target, branch, out))
}

// Reads as many bytes at the front of `out` as the branch's form has.
fn read_front<T: Target>(target: &T, branch: Branch, out: &[u8]) -> Option<Branch>
    requires { (T.Target.meaning target.now).size branch.kind branch.form ≤ length out.now }
    ensures { Reading (T.Target.meaning target.now) (take ((T.Target.meaning target.now).size branch.kind branch.form) out.now) result }
{
    let size = target.size(branch.entry()) as usize;
    target.read(&out[..size])
}

// Reads a branch, and writes what was read at the front of `out`.
pub fn read_then_write<T: Target>(
    target: &T,
    bytes: &[u8],
    out: &mut [u8],
) -> Result<Option<Branch>, WriteFault>
    ensures { WrittenBack (T.Target.meaning target.now) bytes.now out.old result out.new }
{
    let Some(branch) = target.read(bytes) else {
        return Ok(None);
    };
    target.write(branch, out)?;
    Ok(Some(branch))
}
