// Rounds of the worked locks with both hashes and with seals of 1 and 64 bytes, and of locks with the shortest and the longest view.
mod histories;
mod played;
mod promised;
