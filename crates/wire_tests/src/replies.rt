// What no clause says: that calls succeed, and the exact bytes of answers that were written by hand.
mod bodies;
mod ends;
mod loads;
mod results;
mod texts;
