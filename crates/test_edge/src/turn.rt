mod sum;
mod threads;
mod turns;
