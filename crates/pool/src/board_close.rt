//! The end of a board.
ghost use Rattle.std.specs.Prelude.{◌≡◌, ◌+◌, All, length};
ghost use Rattle.board.specs.Places.{IsHostAtRest, IsHandAtRest};
ghost use Rattle.board.specs.Rule.{total};
ghost use Rattle.pool.specs.Serving.{jobs_out, made_in};

use board::{Board, Hand, Host};
use keys::Rules;

// Closes the board, and drops the jobs that were not collected, each as a job or as its turn. Returns how many came
// back, which are as many as are out.
pub(crate) fn close_board<R: Rules>(board: Board<R>, host: Host<R>, hands: Vec<Hand<R>>) -> usize
    requires host { IsHostAtRest board.table.shared.table_id host.seat }
    requires hands { (host.seat.me.0.hands ≡ length hands.items)
        × All (λ h. IsHandAtRest board.table.shared.table_id h.seat) hands.items }
    requires places { length host.seat.me.0.out ≡ board.capacity }
    ensures back { result ≡ jobs_out host.seat.me.0 }
    ensures answers { jobs_out host.seat.me.0 ≡ 0 → made_in host.seat.me.0.answers + total
        (λ h. made_in h.seat.me.0.answers) hands.items ≡ made_in host.seat.me.0.collected }
{
    board.close(host, hands).free()
}
