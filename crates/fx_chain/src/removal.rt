//! Files that a request removes or releases, and their closes.
ghost use Rattle.std.specs.Prelude.{◌≡◌, ◌<◌, [], Option, is_some};
ghost use Rattle.fx_plain.specs.declared.event.Action.TheVariants.{Put, Clear, Take};
ghost use Rattle.fx_plain.specs.declared.event.File.{File};
ghost use Rattle.fx_plain.specs.History.{◌▷◌};
ghost use Rattle.fx_table.specs.Pass.{IsHoldOf};
ghost use Rattle.fx_table.specs.Opening.{size_of};
ghost use Rattle.fx_chain.specs.Answers.{MayClose};
ghost use Rattle.fx_chain.specs.Contexts.{PlayerActs, IsSamePlayer, IsReady, player_view};
ghost use Rattle.fx_chain.specs.Removals.{IsRemovedBy, IsRelease, IsRetirement};

use crate::context::{Context, Player};
use fx_base::OpenFile;
use fx_table::{FileTable, Hold, Retired};
use std::sync::Wait;

// Retires the file that the pass removed, if there was one, and closes it if it has no holds now.
// Otherwise its last release does.
fn retire<T: FileTable, R: Wait>(
    context: &Context<'_, T, R>,
    player: &mut Player<'_, T::Pass>,
    removed: Option<Retired>,
)
    requires fits { T.fits context.now.table.now player.old.pass.now }
    requires removed { IsRemovedBy (T.view player.old.pass.now) removed }
    requires room { 0 < player.old.closes.now.room }
    ensures kept { IsSamePlayer (T.fits context.now.table.now) player.old player.new }
    ensures retired { IsRetirement (T.opening context.now.table.now)
        (player_view T.view player.old) removed (player_view T.view player.new) }
{
    let Some(retired) = removed else {
        return;
    };
    if let Some(file) = context.table.retire(context.rt, player.pass, retired) {
        player.closes.close(file);
    }
}

// Releases the file that the pass holds, and closes it if it was retired and this was its last
// hold.
pub(crate) fn release<T: FileTable, R: Wait>(
    context: &Context<'_, T, R>,
    player: &mut Player<'_, T::Pass>,
    hold: Hold,
)
    requires fits { T.fits context.now.table.now player.old.pass.now }
    requires held { IsHoldOf (T.view player.old.pass.now) hold }
    requires room { 0 < player.old.closes.now.room }
    ensures kept { IsSamePlayer (T.fits context.now.table.now) player.old player.new }
    ensures released { IsRelease (T.opening context.now.table.now)
        (player_view T.view player.old) (player_view T.view player.new) }
{
    if let Some(file) = context.table.release(context.rt, player.pass, hold) {
        player.closes.close(file);
    }
}

// Empties a slot for a close, and returns whether there was a file.
pub(crate) fn take<T: FileTable, R: Wait>(
    context: &Context<'_, T, R>,
    player: &mut Player<'_, T::Pass>,
    slot: u32,
) -> bool
    requires ready { IsReady T.view (T.fits context.now.table.now) player.old 0 0 1 }
    requires slot { slot < size_of (T.opening context.now.table.now) }
    ensures kept { IsSamePlayer (T.fits context.now.table.now) player.old player.new }
    ensures removed { (removed : Option File) × (result ≡ is_some removed)
        × PlayerActs (T.opening context.now.table.now) T.view player.old 0 0 1
        (MayClose ([] ▷ Take slot removed) removed) player.new }
{
    let removed = context.table.take(context.rt, player.pass, slot).ok();
    let found = removed.is_some();
    retire(context, player, removed);
    found
}

// Empties a slot for an update.
pub(crate) fn clear<T: FileTable, R: Wait>(
    context: &Context<'_, T, R>,
    player: &mut Player<'_, T::Pass>,
    slot: u32,
)
    requires ready { IsReady T.view (T.fits context.now.table.now) player.old 0 0 1 }
    requires slot { slot < size_of (T.opening context.now.table.now) }
    ensures kept { IsSamePlayer (T.fits context.now.table.now) player.old player.new }
    ensures removed { (removed : Option File)
        × PlayerActs (T.opening context.now.table.now) T.view player.old 0 0 1
        (MayClose ([] ▷ Clear slot removed) removed) player.new }
{
    let removed = context.table.clear(context.rt, player.pass, slot);
    retire(context, player, removed);
}

// Installs a file at a slot, and removes the file that was there.
pub(crate) fn put<T: FileTable, R: Wait>(
    context: &Context<'_, T, R>,
    player: &mut Player<'_, T::Pass>,
    slot: u32,
    file: OpenFile,
)
    requires ready { IsReady T.view (T.fits context.now.table.now) player.old 0 1 1 }
    requires slot { slot < size_of (T.opening context.now.table.now) }
    ensures kept { IsSamePlayer (T.fits context.now.table.now) player.old player.new }
    ensures removed { (new : File) × (removed : Option File) × (new.identity ≡ file)
        × PlayerActs (T.opening context.now.table.now) T.view player.old 0 1 1
        (MayClose ([] ▷ Put slot new removed) removed) player.new }
{
    let removed = context.table.put(context.rt, player.pass, slot, file);
    retire(context, player, removed);
}
