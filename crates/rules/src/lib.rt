// The plan check: whether cells keep every rule of a job.
// The contracts cite `Plans` and `Asked`; `Job` is what is planned and checked.
#![tactic(auto)]

mod plans;

ghost use Rattle.std.specs.Prelude.{◌≡◌};
ghost use Rattle.sheet.specs.Refusal.{refusal};
ghost use Rattle.rules.specs.Job.{job_with};
ghost use Rattle.rules.specs.Plans.{checked, check_number};
ghost use Rattle.rules.specs.declared.CheckRefusal.TheVariants.{Sheet};

use channels::is_channel_list;
use plans::keeps_job;
pub use plans::{cells_listed, cells_spare};
use sheet::{Cause, check_sheet, links_of};

// Why the plan check refuses.
#[derive(Clone, Copy, Debug, PartialEq, Eq)]
pub enum CheckRefusal {
    Sheet(Cause),
    FewCells,
    Channels,
}

impl From<Cause> for CheckRefusal {
    ghost from_gives = { λ cause refusal. refusal ≡ Sheet cause };

    fn from(cause: Cause) -> CheckRefusal {
        CheckRefusal::Sheet(cause)
    }
}

// The paper's number for an answer of the check.
pub fn check_number(answer: Result<bool, CheckRefusal>) -> u32
    ensures { result ≡ check_number answer }
{
    match answer {
        Ok(false) => 0,
        Ok(true) => 100,
        Err(CheckRefusal::FewCells) => 10,
        Err(CheckRefusal::Channels) => 17,
        Err(CheckRefusal::Sheet(cause)) => u32::from(cause),
    }
}

// The plan check of a sheet that was accepted: it reads the first k cells, and says whether they keep every rule.
pub fn check_accepted(s: &[u8], channels: &[u8], cells: &[u32]) -> Result<bool, CheckRefusal>
    requires { refusal s.now ≡ 0 }
    ensures { check_number result
        ≡ checked (job_with s.now channels.now) cells.now }
{
    if cells.len() < links_of(s) {
        return Err(CheckRefusal::FewCells);
    }
    if !is_channel_list(channels) {
        return Err(CheckRefusal::Channels);
    }
    Ok(keeps_job(s, channels, cells))
}

// The plan check, for any bytes, any list of channels and any cells.
pub fn check_plan(s: &[u8], channels: &[u8], cells: &[u32]) -> Result<bool, CheckRefusal>
    ensures { check_number result
        ≡ checked (job_with s.now channels.now) cells.now }
{
    check_sheet(s)?;
    check_accepted(s, channels, cells)
}
