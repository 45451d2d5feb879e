// A setting made, and filled in place.
ghost use Rattle.std.specs.Prelude.{◌≡◌, ◌≤◌, [], length, IfOk, OnOk, vec_capacity};
ghost use Rattle.faults.specs.Faults.{setting_fault};
ghost use Rattle.faults.specs.Outcomes.{answered};
ghost use Rattle.settings.specs.Contents.{Within, content, wanted};
ghost use Rattle.settings.specs.Filling.{try_figures, try_initial, try_requests, try_content, filled, FillsWithin};

use crate::contents::Contents;
use crate::setting::Setting;
use faults::{Figure, SettingFault};
use maps::{ones, within};
use std::alloc::{AllocError, Global};

const MOST_BLOCKS: u8 = 64;

const MOST_REQUESTS: usize = 200;

// Whether the initial map is `size` of the blocks.
fn try_initial(blocks: u8, size: u8, initial: u64) -> Result<(), SettingFault>
    ensures { answered setting_fault result ≡ try_initial blocks size initial }
{
    let count = ones(initial);
    if within(initial, blocks) && count == size {
        return Ok(());
    }
    Err(SettingFault::Initial { ones: count })
}

// Whether every request names one of the blocks.
// A `for` over the lent bytes with their index, and not `position`: a rule of the project asks for this form.
fn try_requests(blocks: u8, requests: &[u8]) -> Result<(), SettingFault>
    requires { length requests.now ≤ 200 }
    ensures { answered setting_fault result ≡ try_requests blocks 1 requests.now }
{
    for (i, block) in requests.iter().enumerate() {
        if *block >= blocks {
            return Err(SettingFault::Request {
                number: i as u8 + 1,
            });
        }
    }
    Ok(())
}

// Tries all that a setting is filled with: figures, initial map, requests.
#[tactic(auto, using(crate::proofs::Limits::within_ok))]
fn try_content(new: &Contents) -> Result<(), SettingFault>
    ensures answers { answered setting_fault result ≡ try_content (wanted new.now) }
    ensures within { OnOk result (Within (wanted new.now)) }
{
    Setting::try_figures(new.blocks, new.size, new.requests.len())?;
    try_initial(new.blocks, new.size, new.initial)?;
    try_requests(new.blocks, new.requests)
}

// Writes the requests in the place of those that were there.
fn replace_requests(kept: &mut Vec<u8>, requests: &[u8])
    requires { length requests.now ≤ vec_capacity kept.old }
    ensures items { kept.new.items ≡ requests.now }
    ensures room { vec_capacity kept.old ≤ vec_capacity kept.new }
{
    kept.clear();
    kept.extend_from_slice(requests).unwrap();
}

impl Setting {
    // One block, which is cached, and no request.
    pub fn new(heap: Global) -> Result<Setting, AllocError>
        ensures { IfOk result (λ s. content s ≡ record { blocks = 1; size = 1; initial = 1; requests = [] }) }
    {
        let requests = Vec::with_capacity(heap, MOST_REQUESTS)?;
        Ok(Setting {
            blocks: 1,
            size: 1,
            initial: 1,
            requests,
        })
    }

    // Tries the figures alone: the number of blocks, the cache's size, the number of requests.
    pub fn try_figures(blocks: u8, size: u8, requests: usize) -> Result<(), SettingFault>
        ensures { answered setting_fault result ≡ try_figures blocks size requests }
    {
        if !(1..=MOST_BLOCKS).contains(&blocks) {
            return Err(SettingFault::Figure(Figure::Blocks));
        }
        if !(1..=blocks).contains(&size) {
            return Err(SettingFault::Figure(Figure::Size));
        }
        if requests > MOST_REQUESTS {
            return Err(SettingFault::Figure(Figure::Requests));
        }
        Ok(())
    }

    // Fills the setting, or refuses and changes nothing. (Where it is compiled into its caller, tests of few requests, or of
    // requests that the caller knows, cost next to nothing.)
    #[inline]
    pub fn fill(&mut self, new: &Contents) -> Result<(), SettingFault>
        ensures answers { answered setting_fault result ≡ try_content (wanted new.now) }
        ensures limits { FillsWithin (wanted new.now) (answered setting_fault result) }
        ensures content { content self.new ≡ filled (answered setting_fault result) (wanted new.now) (content self.old) }
    {
        try_content(new)?;
        replace_requests(&mut self.requests, new.requests);
        self.blocks = new.blocks;
        self.size = new.size;
        self.initial = new.initial;
        Ok(())
    }
}
