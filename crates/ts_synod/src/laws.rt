//! The laws of the protocol, each on a function that does nothing. They hold for every command
//! type, state machine and question.

ghost use Rattle.ts_synod.specs.Store.{Store};
ghost use Rattle.ts_synod.specs.Laws.{Agreement, OnlySubmitted, EqualVerdicts, StepByForce};
ghost use Rattle.ts_synod.specs.Laws.{ForceStays};
ghost use Rattle.ts_synod.specs.Example.{ClassicRun};
ghost use Rattle.ts_synod.specs.Turn.{CrashIsEvents, TurnIsEvents};

/// After every list of events, two nodes that hold a command at one position hold the same one, and
/// it is chosen there; and two commands chosen at one position are equal ('Paxos Made Simple' 2.1,
/// proved there in 2.2).
pub fn agreement<C, O, T, Q, V>()
    ensures { (store : Store C O T Q V) → Agreement store }
{}

/// Each chosen command was submitted at some node ('Paxos Made Simple' 2.1).
pub fn only_submitted<C, O, T, Q, V>()
    ensures { (store : Store C O T Q V) → OnlySubmitted store }
{}

/// Each answer given at k is the answer over the first k chosen commands, so that two answers to
/// equal questions at k are equal; an id is settled at the first position that has it, with the
/// outcome there ('Paxos Made Simple' 3).
pub fn equal_verdicts<C, O, T, Q, V>()
    ensures { (store : Store C O T Q V) → EqualVerdicts store }
{}

/// Two nodes with one volatile part and equivalent facts (`SameForce`) make the same step. A
/// restart forgets the volatile part, so a node that restarts from equivalent facts goes on alike
/// ('Paxos Made Simple' 2.5: what stable storage must keep).
pub fn step_by_force<C, O, T, Q, V>()
    ensures { (store : Store C O T Q V) → StepByForce store }
{}

/// Two equivalent lists of facts stay so when the same facts are kept after each.
pub fn force_stays<C>()
    ensures { ForceStays C }
{}

/// The replies, the logs and the messages of a run of three nodes: one proposes, restarts with its
/// promises lost, is overtaken by another, and in its second round proposes the other's command,
/// since a promise reports it ('Paxos Made Simple' 2.2).
pub fn classic_run()
    ensures { ClassicRun }
{}

/// A turn of a node, whose facts are kept together, is one event for each of its inputs. A crash
/// once they are kept is these events and a restart; a crash before that is a restart alone.
pub fn a_turn_is_events<C, O, T, Q, V>()
    ensures turn { (store : Store C O T Q V) → TurnIsEvents store }
    ensures crash { (store : Store C O T Q V) → CrashIsEvents store }
{}
