//! Texts that are appended. When memory ends, a part may have been.
ghost use Rattle.std.specs.Prelude.{◌≡◌, ◌++◌, decimal, OnOk};
ghost use Rattle.dtp_gen.specs.Scripts.{name};

use bstr::ByteVec;
use itoa::Buffer;
use std::alloc::AllocError;

pub fn push_number(n: u32, out: &mut Vec<u8>) -> Result<(), AllocError>
    ensures { OnOk result (out.new.items ≡ out.old.items ++ decimal n) }
{
    let mut buffer = Buffer::new();
    out.push_str(buffer.format(n).as_bytes())
}

/// The name of the start of a job's operation.
#[tactic(auto, unfolding(crate::specs::Scripts::name))]
pub fn push_name(job: u32, k: u32, out: &mut Vec<u8>) -> Result<(), AllocError>
    ensures { OnOk result (out.new.items ≡ out.old.items ++ name job k) }
{
    out.push_str(b"s_")?;
    push_number(job, out)?;
    out.push_str(b"_")?;
    push_number(k, out)
}
