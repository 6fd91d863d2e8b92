// The five lists.
ghost use Rattle.std.specs.Prelude.{◌≡◌, ◌<◌, map, take, drop};
ghost use Rattle.std.proofs.Common.{rules, lit<};
ghost use Rattle.std.specs.List.{AllByRecursion};
ghost use Rattle.protocol.specs.Client.{Share as SomeShare};
ghost use Rattle.past.specs.Past.{row_of};
ghost use Rattle.stored.specs.Numbers.{duty_numbers, data_numbers, share_numbers};
ghost use Rattle.layout.specs.declared.region.Region.TheVariants as region;
ghost use Rattle.store.specs.Store.{duty_found, data_found, share_found, entry_found, only_active, only_ahead, only_own};
ghost use Rattle.store.specs.Relisted.{only_active_relisted, only_ahead_relisted, only_own_relisted};
ghost use Rattle.store.specs.Laws.{past_held, past_read, past_none, queue_held, active_held, duty_read, duty_none, ahead_held, data_read, data_none, own_held, share_read, share_none};

use crate::listed::Listed;
use crate::slotted::Slotted;
use layout::Region;
use wire::{Data, Duty, Entry, Share};

// The past, the largest target first.
#[derive(Clone, Copy)]
pub struct Past;

// The duties that wait, the first that waits first.
#[derive(Clone, Copy)]
pub struct Waiting;

// The duties that are being decided, the last begun first.
#[derive(Clone, Copy)]
pub struct Deciding;

// The data that is ahead, by slots.
#[derive(Clone, Copy)]
pub struct Ahead;

// The own shares, the largest slot first.
#[derive(Clone, Copy)]
pub struct Own;

impl Listed<2> for Past {
    type Entry = Entry;

    ghost REGION = { region.Past };

    ghost rows = { λ t. map row_of t.past };

    ghost found = { λ t i e. entry_found e ≡ take 1 (drop i t.past) };

    ghost sized = { Prim.search rules };

    ghost held = { past_held };

    ghost some = { past_read };

    ghost none = { past_none };

    const REGION: Region = Region::Past;
}

impl Listed<3> for Waiting {
    type Entry = Duty;

    ghost REGION = { region.Queue };

    ghost rows = { λ t. map duty_numbers t.queue };

    ghost found = { λ t i y. duty_found y ≡ take 1 (drop i t.queue) };

    ghost sized = { Prim.search rules };

    ghost held = { queue_held };

    ghost some = { λ t. duty_read t.queue };

    ghost none = { λ t. duty_none t.queue };

    const REGION: Region = Region::Queue;
}

impl Listed<3> for Deciding {
    type Entry = Duty;

    ghost REGION = { region.Active };

    ghost rows = { λ t. map duty_numbers t.active };

    ghost found = { λ t i y. duty_found y ≡ take 1 (drop i t.active) };

    ghost sized = { Prim.search rules };

    ghost held = { active_held };

    ghost some = { λ t. duty_read t.active };

    ghost none = { λ t. duty_none t.active };

    const REGION: Region = Region::Active;
}

impl Listed<16> for Ahead {
    type Entry = Data;

    ghost REGION = { region.Ahead };

    ghost rows = { λ t. map data_numbers t.ahead };

    ghost found = { λ t i d. data_found d ≡ take 1 (drop i t.ahead) };

    ghost sized = { Prim.search rules };

    ghost held = { ahead_held };

    ghost some = { data_read };

    ghost none = { data_none };

    const REGION: Region = Region::Ahead;
}

impl Listed<18> for Own {
    type Entry = Share;

    ghost REGION = { region.Own };

    ghost rows = { λ t. map share_numbers t.own };

    ghost found = { λ t i s. AllByRecursion (λ (x : SomeShare). x.who < 256) t.own → share_found s ≡ take 1 (drop i t.own) };

    ghost sized = { Prim.search rules };

    ghost held = { own_held };

    ghost some = { share_read };

    ghost none = { share_none };

    const REGION: Region = Region::Own;
}

impl Slotted<3> for Deciding {
    ghost SLOT = { 0 };

    ghost only = { only_active };

    ghost inside = { lit< tt };

    ghost keeps = { only_active_relisted };

    const SLOT: usize = 0;
}

impl Slotted<16> for Ahead {
    ghost SLOT = { 0 };

    ghost only = { only_ahead };

    ghost inside = { lit< tt };

    ghost keeps = { only_ahead_relisted };

    const SLOT: usize = 0;
}

impl Slotted<18> for Own {
    ghost SLOT = { 2 };

    ghost only = { only_own };

    ghost inside = { lit< tt };

    ghost keeps = { only_own_relisted };

    const SLOT: usize = 2;
}
