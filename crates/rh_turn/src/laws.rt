//! What holds of all histories.

ghost use Rattle.std.specs.Prelude.{◌≡◌, ℕ, List, [], ◌∷◌, ◌++◌, length, Some, slice_get};
ghost use mathlib.Core.List.{IsPrefix};
ghost use Rattle.rh_turn.specs.History.{state_after, replies, AreAll};

use crate::machine::Machine;

/// The reply at the last place is that of the state before it. What is replied at a place of a
/// history is replied there in each that it begins. Places that are all of a history are as many
/// as its events. This function does nothing, and its contract is these laws.
pub fn one_history<M: Machine>()
    ensures last { (first : M.State) (before : List M.Event) (event : M.Event)
        → slice_get (replies M.next M.reply first (before ++ event ∷ [])) (length before)
        ≡ Some (M.reply (state_after M.next first before) event) }
    ensures stays { (first : M.State) (seen all : List M.Event) (place : ℕ) (answer : M.Reply)
        → IsPrefix seen all → slice_get (replies M.next M.reply first seen) place ≡ Some answer
        → slice_get (replies M.next M.reply first all) place ≡ Some answer }
    ensures count { (mine : List ℕ) (seen : List M.Event)
        → AreAll mine seen → length mine ≡ length seen }
{}
