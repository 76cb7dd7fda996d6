// The passes of several clients: split off the first one, and joined into it again.
ghost use Rattle.std.specs.Prelude.{◌≡◌, ◌<◌, None, Some, IsSome, All, length, map, false};
ghost use Rattle.history_turn.specs.Passes.{viewing, fresh};
ghost use Rattle.history_turn.specs.Views.{cut, part_of};
ghost use Rattle.engine_clients.specs.Seats.{seated_with, unseated, IsOfTurn, JoinsAll};

use crate::client::EngineClient;
use crate::one::{put_pass, take_pass};
use history_turn::{Pass, Turn};
use shard_calls::EngineDisk;
use shard_shared::Engine;

/// Gives each client a pass with one part.
pub(crate) fn seat_all<D: EngineDisk, S, K, C>(
    turn: &Turn<Engine<D>>,
    first: &mut Pass<Engine<D>>,
    clients: &mut [EngineClient<S, K, C, D>],
)
    requires turn { first.old.turn ≡ turn.now }
    requires without_turn { first.old.view.has_turn ≡ false }
    requires parts { length clients.old < first.old.view.parts }
    requires empty { All (λ client. client.pass ≡ None) clients.old }
    ensures first { first.new ≡ viewing first.old (cut first.old.view (length clients.old)) }
    ensures clients { clients.new ≡ map (seated_with (fresh first.old (part_of first.old.view 1))) clients.old }
{
    for k in 0..clients.len() {
        let pass = turn.split(first, 1);
        seat(&mut clients[k], pass);
    }
}

fn seat<D: EngineDisk, S, K, C>(client: &mut EngineClient<S, K, C, D>, pass: Pass<Engine<D>>)
    requires empty { client.old.pass ≡ None }
    ensures { client.new ≡ seated_with pass client.old }
{
    put_pass(&mut client.pass, pass);
}

/// Takes the passes of all clients into the first one.
pub(crate) fn join_all<D: EngineDisk, S, K, C>(
    turn: &Turn<Engine<D>>,
    first: &mut Pass<Engine<D>>,
    clients: &mut [EngineClient<S, K, C, D>],
)
    requires turn { first.old.turn ≡ turn.now }
    requires without_turn { first.old.view.has_turn ≡ false }
    requires seated { All (λ client. IsOfTurn turn.now client.pass) clients.old }
    ensures first { JoinsAll first.old clients.old first.new }
    ensures clients { clients.new ≡ map unseated clients.old }
{
    for k in 0..clients.len() {
        let pass = unseat(&mut clients[k]);
        turn.join(first, pass);
    }
}

fn unseat<D: EngineDisk, S, K, C>(client: &mut EngineClient<S, K, C, D>) -> Pass<Engine<D>>
    requires seated { IsSome client.old.pass }
    ensures pass { client.old.pass ≡ Some result }
    ensures left { client.new ≡ unseated client.old }
{
    take_pass(&mut client.pass)
}
