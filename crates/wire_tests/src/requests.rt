// Requests as tables: what is sent, and what is asked for.
mod ends;
mod loads;
mod shown;
mod statements;
mod targets;
