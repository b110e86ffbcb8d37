// What no clause says: that calls succeed, and what the forms over std do at faults.
mod fakes;
mod memory;
mod over_std;
