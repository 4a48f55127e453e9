//! The program: the status and the text of each command for its words and its input, and the calls behind the commands.

mod calls;
mod faults;
mod knapsack;
mod live;
mod on_board;
mod replay;
mod scripts;
mod words;
