// Views of the points.
ghost use Rattle.std.specs.Prelude.{◌≡◌, ◌<◌, ◌+◌, IfOk, IfErr, OnOk, OnErr};
ghost use Rattle.shard_steps.specs.Calls.View.{HasCause, Lends};

use crate::Shard;
use point_model::Need;
use store_trait::{ListView, ViewFault};

/// A view of the points as they are now. It has to be ended.
pub fn begin_view<D>(shard: &mut Shard<D>, need: &Need) -> Result<ListView, ViewFault>
    ensures ok { IfOk result (λ view. Lends need.now view shard.old) }
    ensures out { OnOk result (shard.new ≡ record shard.old { views = shard.old.views + 1 }) }
    ensures room { OnOk result (shard.old.views < shard.old.settings.views) }
    ensures err { OnErr result (shard.new ≡ shard.old) }
    ensures refused { IfErr result (HasCause shard.old) }
{
    if shard.views >= shard.settings.views {
        return Err(ViewFault::TooManyViews { out: shard.views });
    }
    shard.live.look();
    let view = shard.live.view(need, shard.logs.number())?;
    shard.views += 1;
    Ok(view)
}

/// Takes a view of this engine back. It takes no memory.
pub fn end_view<D>(shard: &mut Shard<D>, view: ListView)
    requires { 0 < shard.old.views }
    ensures views { shard.old.views ≡ shard.new.views + 1 }
    ensures same { shard.new ≡ record shard.old { views = shard.new.views } }
{
    let _ = view;
    shard.views -= 1;
}
