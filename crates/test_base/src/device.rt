// The outside: worked calls, faults by number, each crash image, and time.
mod images;
mod replace;
mod source;
mod station;
