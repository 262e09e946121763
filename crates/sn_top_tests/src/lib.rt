//! The tests of the top calls, of the words that they are given and of samples. They stand apart from those of the other libraries, which need
//! not be proved again where the top calls change.
#![tactic(auto)]

#[cfg(test)]
mod fed;
#[cfg(test)]
mod holding;
#[cfg(test)]
mod hostile;
#[cfg(test)]
mod sample;
#[cfg(test)]
mod served;
#[cfg(test)]
mod together;
#[cfg(test)]
mod top;
#[cfg(test)]
mod traced;
#[cfg(test)]
mod words;
