//! Replays: the program's words and streams, and a script of which each allocation is refused in turn.
mod refusals;
mod streams;
