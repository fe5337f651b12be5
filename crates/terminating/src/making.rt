// The office made from its settings.
ghost use Rattle.std.specs.Prelude.{◌≡◌, IfOk, MatchResult};
ghost use Rattle.fields.specs.declared.refusal.Refusal.TheVariants.{NoMemory};
ghost use Rattle.terminating.specs.Laws.{Begun};
ghost use Rattle.terminating.specs.Making.{line_set, sole_line, lines_allowed, few_allowed, allowed, lines_set, Made};

use crate::office::{Line, Terminating};
use fields::{Identity, Refusal, Service};
use record::first;
use std::alloc::Global;

// A line as plain numbers.
#[derive(Clone, Copy, PartialEq, Eq, Debug)]
pub struct LineSetting {
    pub identity: u64,
    pub service: u64,
}

// What an office is made from: 1 to 256 lines of distinct identities, and 1 to 256 places for
// monitors.
#[derive(PartialEq, Eq, Debug, Drop)]
pub struct TerminatingSettings {
    pub lines: Vec<LineSetting>,
    pub places: u64,
}

// The line, which is free at the start.
impl TryFrom<LineSetting> for Line {
    type Error = Refusal;

    ghost try_from_gives = { λ setting r. r ≡ line_set setting };

    fn try_from(setting: LineSetting) -> Result<Line, Refusal> {
        Ok(Line {
            identity: Identity::try_from(setting.identity)?,
            service: Service::try_from(setting.service)?,
            busy: false,
        })
    }
}

impl LineSetting {
    // Whether the line can be had, and none of the others has its identity.
    fn is_sole(self, others: &[LineSetting]) -> bool
        ensures { result ≡ sole_line self others.now }
    {
        Line::try_from(self).is_ok()
            && first(others, |other| other.identity == self.identity).is_none()
    }
}

// Whether each line can be had, and no two have one identity.
fn lines_allowed(lines: &[LineSetting]) -> bool
    ensures { result ≡ lines_allowed lines.now }
{
    let mut rest = lines;
    while let Some((line, others)) = rest.split_first() {
        if !line.is_sole(others) {
            return false;
        }
        rest = others;
    }
    true
}

fn few_allowed(n: u64) -> bool
    ensures { result ≡ few_allowed n }
{
    (1..=256).contains(&n)
}

// The lines of the settings. Their memory is had at once: `collect` would have up to twice as much.
fn lines_set(heap: Global, settings: &[LineSetting]) -> Result<Vec<Line>, Refusal>
    ensures { MatchResult result (λ v. v.items ≡ lines_set settings.now) (λ e. e ≡ NoMemory) }
{
    let mut lines = Vec::with_capacity(heap, settings.len()).map_err(|_| Refusal::NoMemory)?;
    let free = settings
        .iter()
        .filter_map(|setting| Line::try_from(*setting).ok());
    lines.extend(free).map_err(|_| Refusal::NoMemory)?;
    Ok(lines)
}

impl TerminatingSettings {
    pub fn are_allowed(&self) -> bool
        ensures { result ≡ allowed self.now }
    {
        few_allowed(self.lines.len() as u64)
            && few_allowed(self.places)
            && lines_allowed(&self.lines)
    }
}

impl Terminating {
    // An office whose lines are free and for which no monitor stands. All its memory is had here.
    pub fn new(heap: Global, settings: &TerminatingSettings) -> Result<Terminating, Refusal>
        ensures made { Made settings.now result }
        ensures law { IfOk result (λ t. Begun settings.now t) }
    {
        if !settings.are_allowed() {
            return Err(Refusal::SettingNotAllowed);
        }
        let places = settings.places as usize;
        let lines = lines_set(heap, &settings.lines)?;
        let monitors = Vec::with_capacity(heap, places).map_err(|_| Refusal::NoMemory)?;
        Ok(Terminating {
            lines,
            monitors,
            places,
        })
    }
}
