//! The lowering of Calyx's control to states: one register for each sequential thread, which holds the number of its state, and
//! for each group a rule that says in which states it acts.
//!
//! In and out: as in `cal_lower`. The difference is in what holds control's place:
//!
//!     control { seq { one; inc; one; inc; } }
//!
//!     cal_lower    c$goes1, c$next2, c$goes2, .. c$busy, c$over: a register of one bit for each token
//!     cal_state    c$fsm0: one register of 3 bits; 0 nothing, 1 over, 2 the `seq`, 3 the first `one`, 4 the first `inc`, ..
//!
//! A thread is what runs in sequence: the main one, and one for each branch of a `par` that takes a row. Each part of a thread
//! that takes a row has a state. The wires of `cal_lower` stay with their names; what was a token's register is a wire that is 1
//! in its state (`c$fsm0.out == 3'd2`), and what drove that register brings the thread to the state.
//!
//! How it goes: `lower_control` makes the tokens; `places` walks the source's control and says for each piece of it in which
//! state of which thread it is; `threads` makes registers and guards; `component` puts them in.
//!
//! What the layer above uses: `lower_states` makes a design that keeps what its source has (`MakesStates`): all that `cal_lower`
//! keeps (`ReplacesControl`), with at most as many registers as threads, each no wider than the numbers of its states; and it has a
//! text where the source has.
#![tactic(auto)]

mod component;
mod lower;
mod places;
mod sizes;
mod threads;

pub use lower::lower_states;
