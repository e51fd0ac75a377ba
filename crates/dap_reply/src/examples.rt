//! Worked examples, which the prover computes.
ghost use Rattle.std.specs.Prelude.{◌≡◌, ◌∷◌, ◌++◌, [], codes, false, length, map, replicate, true};
ghost use Rattle.dap_model.specs.declared.fault.CeFault.{CeFault};
ghost use Rattle.dap_model.specs.declared.fault.ProjectFault.{ProjectFault};
ghost use Rattle.web_path.specs.declared.fault.PathFault.{PathFault};
ghost use Rattle.dap_reply.specs.declared.fault.DapFault.{DapFault};
ghost use Rattle.dap_reply.specs.declared.body.BodyKind.TheVariants.{Data, Structure};
ghost use Rattle.dap_reply.specs.declared.status.Status.TheVariants.{Fine};
ghost use Rattle.dap_reply.specs.Fault.{error_text, fault_status};
ghost use Rattle.dap_reply.specs.Kind.{status_text};
ghost use Rattle.dap_reply.specs.Head.{head_text, no_memory_reply};

/// The text of a fault without values.
#[tactic(auto, unfolding(crate::specs::Fault::error_text))]
pub fn no_rows()
    ensures text { error_text DapFault.NoRows
        ≡ codes "Error {\n    code = 37;\n    message = \"no rows\";\n};\n" }
    ensures length { length (error_text DapFault.NoRows) ≡ 51 }
{}

/// The head of a structure text of 369 bytes, over a collection that one operation left.
pub fn head_of_a_structure_text()
    ensures { head_text (record { status = Fine; kind = Structure; len = 369; revision = 1; last = false })
        ≡ codes "HTTP/1.1 200 OK\r\nXDODS-Server: dods/3.2\r\nContent-Description: dods_dds\r\n"
        ++ codes "Content-Type: text/plain\r\nX-Collection-Revision: 1\r\n"
        ++ codes "Content-Length: 369\r\nConnection: keep-alive\r\n\r\n" }
{}

/// The head of a reply with data, which is a connection's last.
pub fn head_of_data()
    ensures { head_text (record { status = Fine; kind = Data; len = 575; revision = 12; last = true })
        ≡ codes "HTTP/1.1 200 OK\r\nXDODS-Server: dods/3.2\r\nContent-Description: dods_data\r\n"
        ++ codes "Content-Type: application/octet-stream\r\nX-Collection-Revision: 12\r\n"
        ++ codes "Content-Length: 575\r\nConnection: close\r\n\r\n" }
{}

/// What is said of a request for which nothing is looked at.
pub fn refused_requests()
    ensures method { error_text DapFault.Method
        ≡ codes "Error {\n    code = 35;\n    message = \"method not taken\";\n};\n" }
    ensures body { error_text DapFault.BodyNotTaken
        ≡ codes "Error {\n    code = 36;\n    message = \"body not taken\";\n};\n" }
    ensures head { error_text DapFault.BadHead
        ≡ codes "Error {\n    code = 38;\n    message = \"bad request head\";\n};\n" }
    ensures long { error_text DapFault.HeadTooLong
        ≡ codes "Error {\n    code = 39;\n    message = \"request head over 16384 bytes\";\n};\n" }
{}

/// What is said of a target.
pub fn refused_targets()
    ensures escape { error_text (DapFault.Path (PathFault.BadEscape 36))
        ≡ codes "Error {\n    code = 31;\n    message = \"bad escape at 36\";\n};\n" }
    ensures dataset { error_text (DapFault.Path PathFault.NoSuchDataset)
        ≡ codes "Error {\n    code = 32;\n    message = \"no such dataset\";\n};\n" }
    ensures service { error_text (DapFault.Path PathFault.NoSuchService)
        ≡ codes "Error {\n    code = 33;\n    message = \"no such service\";\n};\n" }
{}

/// What is said of a constraint.
pub fn refused_constraints()
    ensures grammar { error_text (DapFault.Constraint (CeFault.BadConstraint 4))
        ≡ codes "Error {\n    code = 21;\n    message = \"constraint wrong at 4\";\n};\n" }
    ensures selection { error_text (DapFault.Constraint (CeFault.Selection 7))
        ≡ codes "Error {\n    code = 22;\n    message = \"selection at 7\";\n};\n" }
    ensures variable { error_text (DapFault.Projection (ProjectFault.NoSuchVariable (codes "x")))
        ≡ codes "Error {\n    code = 23;\n    message = \"no variable x\";\n};\n" }
    ensures rank { error_text (DapFault.Projection (ProjectFault.SlabRank (codes "x") 2 1))
        ≡ codes "Error {\n    code = 24;\n    message = \"x takes 1 slabs and has 2\";\n};\n" }
    ensures range { error_text (DapFault.Projection (ProjectFault.SlabRange (codes "x") 0 9))
        ≡ codes "Error {\n    code = 25;\n    message = \"slab 0 of x is outside 9\";\n};\n" }
    ensures conflict { error_text (DapFault.Projection (ProjectFault.SlabConflict (codes "x")))
        ≡ codes "Error {\n    code = 26;\n    message = \"x has two lists of slabs\";\n};\n" }
{}

/// What is said of a body that is too large, also where 64 bits don't hold its length.
pub fn refused_bodies()
    ensures large { error_text (DapFault.TooLarge 536870913 536870912)
        ≡ codes "Error {\n    code = 34;\n    message = \"body of 536870913 bytes is over 536870912\";\n};\n" }
    ensures long { error_text (DapFault.TooLarge 1267650600228229401496703205376 536870912)
        ≡ codes "Error {\n    code = 34;\n"
        ++ codes "    message = \"body of 1267650600228229401496703205376 bytes is over 536870912\";\n};\n" }
{}

/// The status of each fault.
pub fn statuses()
    ensures bad { map (λ (fault : DapFault). status_text (fault_status fault)) (DapFault.BodyNotTaken ∷ DapFault.BadHead
        ∷ DapFault.Path (PathFault.BadEscape 0) ∷ DapFault.Constraint (CeFault.Selection 0)
        ∷ DapFault.Projection (ProjectFault.SlabConflict []) ∷ []) ≡ replicate 5 (codes "400 Bad Request") }
    ensures missing { map (λ (fault : DapFault). status_text (fault_status fault)) (DapFault.NoRows
        ∷ DapFault.Path PathFault.NoSuchDataset ∷ DapFault.Path PathFault.NoSuchService ∷ [])
        ≡ replicate 3 (codes "404 Not Found") }
    ensures method { status_text (fault_status DapFault.Method) ≡ codes "405 Method Not Allowed" }
    ensures body { status_text (fault_status (DapFault.TooLarge 1 0)) ≡ codes "413 Content Too Large" }
    ensures head { status_text (fault_status DapFault.HeadTooLong) ≡ codes "431 Request Header Fields Too Large" }
{}

/// The reply where memory runs out, which says that the connection ends.
#[tactic(auto, unfolding(crate::specs::Head::no_memory_reply, crate::specs::Head::head_line))]
pub fn no_memory()
    ensures { no_memory_reply ≡ codes "HTTP/1.1 503 Service Unavailable\r\nContent-Length: 0\r\n"
        ++ codes "Connection: close\r\n\r\n" }
{}
