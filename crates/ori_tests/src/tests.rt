// Tests by subject.
mod calls;
mod crashes;
mod decisions;
mod depths;
mod entries;
mod faults;
mod fronts;
mod numbers;
mod orders;
mod records;
mod reopenings;
mod runs;
mod samples;
mod shared;
mod steps;
mod texts;
mod values;
