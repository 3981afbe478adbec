//! Texts that are appended. When memory ends, a part may have been.
ghost use Rattle.std.specs.Prelude.{◌≡◌, ◌++◌, decimal, OnOk};
ghost use Rattle.std.specs.Fmt.{signed_decimal};
ghost use Rattle.smt_sexpr.specs.Printing.{text_of};
ghost use Rattle.job_shop.specs.Scripts.{name, point, less};

use bstr::ByteVec;
use itoa::Buffer;
use std::alloc::AllocError;

pub fn push_number(n: u32, out: &mut Vec<u8>) -> Result<(), AllocError>
    ensures { OnOk result (out.new.items ≡ out.old.items ++ decimal n) }
{
    let mut buffer = Buffer::new();
    out.push_str(buffer.format(n).as_bytes())
}

pub fn push_count(n: usize, out: &mut Vec<u8>) -> Result<(), AllocError>
    ensures { OnOk result (out.new.items ≡ out.old.items ++ decimal n) }
{
    let mut buffer = Buffer::new();
    out.push_str(buffer.format(n).as_bytes())
}

pub fn push_signed(n: i128, out: &mut Vec<u8>) -> Result<(), AllocError>
    ensures { OnOk result (out.new.items ≡ out.old.items ++ signed_decimal n) }
{
    let mut buffer = Buffer::new();
    out.push_str(buffer.format(n).as_bytes())
}

/// The number less than 0 by so much.
#[tactic(auto, using(crate::proofs::Printing::less_at_zero, crate::proofs::Printing::less_above))]
pub fn push_less(n: u32, out: &mut Vec<u8>) -> Result<(), AllocError>
    ensures { OnOk result (out.new.items ≡ out.old.items ++ text_of (less n)) }
{
    if n == 0 {
        out.push_str(b"0")?;
        return Ok(());
    }
    out.push_str(b"(- ")?;
    push_number(n, out)?;
    out.push_str(b")")?;
    Ok(())
}

/// The bytes of the name of the start of a job's operation.
#[tactic(auto, unfolding(crate::specs::Scripts::name))]
fn push_name(job: u32, k: u32, out: &mut Vec<u8>) -> Result<(), AllocError>
    ensures { OnOk result (out.new.items ≡ out.old.items ++ name job k) }
{
    out.push_str(b"s_")?;
    push_number(job, out)?;
    out.push_str(b"_")?;
    push_number(k, out)
}

/// The start of a job's operation.
#[tactic(auto, using(crate::proofs::Printing::point_text))]
pub fn push_point(job: u32, k: u32, out: &mut Vec<u8>) -> Result<(), AllocError>
    ensures { OnOk result (out.new.items ≡ out.old.items ++ text_of (point job k)) }
{
    push_name(job, k, out)?;
    Ok(())
}
