//! What follows of runs, over the definitions alone.

ghost use Rattle.std.specs.Prelude.{◌≡◌, true, List, []};
ghost use Rattle.fws_events.specs.declared.events.Event.{Event};
ghost use Rattle.fws_events.specs.declared.events.Event.TheVariants as events;
ghost use Rattle.fws_events.specs.Runs.{GiveSameFates, GiveSameFatesAt, AreMet, answer_to, answers_to, conns_behind_all, conns_behind_each};
ghost use Rattle.fws_events.specs.RunText.{answer_text, run_text};
ghost use Rattle.fws_net.specs.declared.connection.Conn.{Conn};
ghost use Rattle.fws_net.specs.declared.connection.Kind.{Kind};
ghost use Rattle.fws_net.specs.declared.outcome.Outcome.{Outcome};
ghost use Rattle.fws_net.specs.declared.packet.Packet.{Packet};
ghost use Rattle.fws_net.specs.declared.site.Site.{Site};
ghost use Rattle.fws_trace.specs.TraceText.{traced_line};

/// Does nothing: the clauses are laws of runs. Of two configurations that track and give every packet and class
/// the same fate, every list of events gives the same answers, and the same list of connections behind each event
/// and at the end, from whatever list they begin with; and the texts of their runs are the same.
pub fn runs_keep_step()
    ensures answers { (walk other : Packet → Kind → Outcome) → GiveSameFates walk other → (conns : List Conn) (events : List Event)
        → answers_to true walk conns events ≡ answers_to true other conns events }
    ensures each { (walk other : Packet → Kind → Outcome) → GiveSameFates walk other → (conns : List Conn) (events : List Event)
        → conns_behind_each true walk conns events ≡ conns_behind_each true other conns events }
    ensures last { (walk other : Packet → Kind → Outcome) → GiveSameFates walk other → (conns : List Conn) (events : List Event)
        → conns_behind_all true walk conns events ≡ conns_behind_all true other conns events }
    ensures text { (walk other : Packet → Kind → Outcome) → GiveSameFates walk other → (events : List Event) → run_text true walk events ≡ run_text true other events }
{}

/// Does nothing: the clauses are laws of runs. So do two configurations that give the packets of a site the same
/// fate, in runs that meet each packet as one of the site; as `put_run` says, those of listed events do.
pub fn runs_keep_step_at_sites()
    ensures answers { (site : Site) (walk other : Packet → Kind → Outcome) → GiveSameFatesAt site walk other → (conns : List Conn) (events : List Event)
        → AreMet site true walk conns events → answers_to true walk conns events ≡ answers_to true other conns events }
    ensures each { (site : Site) (walk other : Packet → Kind → Outcome) → GiveSameFatesAt site walk other → (conns : List Conn) (events : List Event)
        → AreMet site true walk conns events → conns_behind_each true walk conns events ≡ conns_behind_each true other conns events }
    ensures last { (site : Site) (walk other : Packet → Kind → Outcome) → GiveSameFatesAt site walk other → (conns : List Conn) (events : List Event)
        → AreMet site true walk conns events → conns_behind_all true walk conns events ≡ conns_behind_all true other conns events }
    ensures text { (site : Site) (walk other : Packet → Kind → Outcome) → GiveSameFatesAt site walk other → (events : List Event)
        → AreMet site true walk [] events → run_text true walk events ≡ run_text true other events }
{}

/// Does nothing: the clause is a law of runs. A packet's line is the one that a trace against the connections
/// listed then has.
pub fn run_lines_are_trace_lines()
    ensures { (walk : Packet → Kind → Outcome) (conns : List Conn) (p : Packet) → answer_text (events.Packet p) (answer_to walk conns (events.Packet p)) ≡ traced_line walk conns p }
{}
